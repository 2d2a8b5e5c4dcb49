//! What a client shows.

use ft_base::{List, Text};
use ft_props::Props;
use ft_sumdoc::{CellRecs, IntervalRecs};

/// How a client stands to the sequencer.
#[derive(Clone, Copy, Debug, PartialEq, Eq)]
pub enum Link {
    /// It has no connection.
    Offline,
    /// It has a connection whose join it hasn't processed yet.
    Joining { conn: u32 },
    /// It has a connection and has processed its join.
    Online { conn: u32 },
}

/// The numbers of a client.
#[derive(Clone, Copy, Debug, PartialEq, Eq)]
pub struct Numbers {
    /// The sequence number that it has processed.
    pub seq: u64,
    /// The last minimum sequence number.
    pub min: u64,
    /// How many of its edits are pending.
    pub pending: u64,
    /// How many sub-operations were out of range.
    pub skipped: u64,
    /// How many messages were for another address.
    pub other: u64,
    /// The greatest of the counts of elements that it ever held in the text, the rows and the
    /// columns.
    pub made: u64,
    pub link: Link,
}

/// A run of adjacent shown elements with equal properties that aren't empty.
#[derive(Drop)]
pub struct Run {
    /// The place of its first element.
    pub start: u64,
    /// The place behind its last element.
    pub end: u64,
    pub props: Props,
}

/// The runs of a view, by rising start.
pub type Runs = List<Run>;

/// A shown marker.
#[derive(Clone, Copy, Debug, PartialEq, Eq)]
pub struct Spot {
    /// Its place among the shown elements.
    pub pos: u64,
    pub ref_type: u64,
}

/// The markers of a view, by rising place.
pub type Spots = List<Spot>;

/// What a client shows.
#[derive(Drop)]
pub struct View {
    pub numbers: Numbers,
    /// The characters of the text, without the markers.
    pub text: Text,
    pub markers: Spots,
    pub runs: Runs,
    pub intervals: IntervalRecs,
    /// How many rows.
    pub rows: u64,
    /// How many columns.
    pub cols: u64,
    /// The cells that have a value.
    pub cells: CellRecs,
}
