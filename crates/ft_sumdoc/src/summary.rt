//! The types of a summary, and of what a view shows of intervals and cells.

use ft_base::{List, Text};
use ft_json::{Field, ValText};
use ft_props::Props;
use std::error::Error;
use std::fmt;

/// What a segment of a summary holds.
#[derive(Drop)]
pub enum Seg {
    /// Characters, each an element.
    Chars { text: Text },
    /// A marker, one element that adds nothing to the text.
    Marker { ref_type: u64 },
}

/// The ends of a shown interval: places among the shown elements, or both -1 where it is detached.
#[derive(Clone, Copy, Debug, PartialEq, Eq)]
pub struct Ends2 {
    pub start: i64,
    pub end: i64,
}

/// A shown interval.
#[derive(Drop)]
pub struct IntervalRec {
    pub label: Text,
    pub id: Text,
    pub ends: Ends2,
    pub props: Props,
}

/// Intervals, by rising label and id.
pub type IntervalRecs = List<IntervalRec>;

/// A shown cell, by the numbers of its row and its column.
#[derive(Drop)]
pub struct CellRec {
    pub row: u64,
    pub col: u64,
    pub value: ValText,
}

/// Cells, by rising row and column.
pub type CellRecs = List<CellRec>;

/// A sequenced stamp in a summary; (0, 0) stands for one at or below the minimum sequence number.
#[derive(Clone, Copy, Debug, PartialEq, Eq)]
pub struct Mark {
    pub seq: u64,
    pub conn: u32,
}

/// The removals of a segment or a run, by rising number.
pub type Marks = List<Mark>;

/// A segment of the text of a summary: elements with equal stamps, author and properties.
#[derive(Drop)]
pub struct SegRec {
    pub body: Seg,
    pub props: Props,
    /// The message of the insertion, (0, 0) where it isn't known.
    pub by: Mark,
    /// The insertion.
    pub ins: Mark,
    /// The removals.
    pub dels: Marks,
}

/// The segments of a summary, in order.
pub type SegRecs = List<SegRec>;

/// A run of units of the rows or the columns of a summary, with equal stamps.
#[derive(Drop)]
pub struct RunRec {
    /// How many units, at least 1.
    pub count: u64,
    /// The insertion.
    pub ins: Mark,
    /// The removals.
    pub dels: Marks,
}

/// The runs of units of a summary, in order.
pub type RunRecs = List<RunRec>;

/// Texts, in order.
pub type Texts = List<Text>;

/// A summary document.
#[derive(Drop)]
pub struct SumDoc {
    /// The sequence number up to which it was made.
    pub seq: u64,
    /// The minimum sequence number then.
    pub min: u64,
    /// How many sub-operations were out of range.
    pub skipped: u64,
    /// How many messages were for another address.
    pub other: u64,
    /// The names of the connections 1, 2, 3 and so on.
    pub conns: Texts,
    pub text: SegRecs,
    pub rows: RunRecs,
    pub cols: RunRecs,
    pub intervals: IntervalRecs,
    pub cells: CellRecs,
}

/// Why the text of a summary is malformed.
#[derive(Clone, Copy, Debug, PartialEq, Eq)]
pub enum SumCause {
    /// It isn't UTF-8.
    NotUtf8,
    /// It isn't JSON.
    NotJson,
    /// A value holds a number that isn't whole or is out of range.
    Fraction,
    /// A value has more than 100 levels.
    TooDeep,
    /// The field isn't there.
    Missing(Field),
    /// The field has a value of another kind.
    WrongKind(Field),
}

/// Why a text is no summary.
#[derive(Clone, Copy, Debug, PartialEq, Eq)]
pub enum SumFault {
    /// It is malformed.
    Malformed(SumCause),
    /// It is of another version than 1 and 2.
    Version(u64),
    /// A stamp of the segment or run at this place is out of range or order; places count from 0
    /// through text, rows and columns.
    BadStamp(u64),
    /// Its count of elements, or that of a chunk, differs from what was found.
    BadCount { said: u64, found: u64 },
    /// There was no memory.
    OutOfMemory,
}

impl fmt::Display for SumCause {
    ghost use Rattle.std.specs.Prelude.{Some};
    ghost use Rattle.ft_sumdoc.specs.FaultTexts.{summary_cause_text};

    ghost output = { λ cause. Some (summary_cause_text cause) };

    fn fmt<W: fmt::Write>(&self, f: &mut fmt::Formatter<W>) -> fmt::Result {
        match *self {
            SumCause::NotUtf8 => f.write_str("NotUtf8"),
            SumCause::NotJson => f.write_str("NotJson"),
            SumCause::Fraction => f.write_str("Fraction"),
            SumCause::TooDeep => f.write_str("TooDeep"),
            SumCause::Missing(field) => write!(f, "Missing {field}"),
            SumCause::WrongKind(field) => write!(f, "WrongKind {field}"),
        }
    }
}

impl Error for SumCause {}

impl fmt::Display for SumFault {
    ghost use Rattle.std.specs.Prelude.{Some};
    ghost use Rattle.ft_sumdoc.specs.FaultTexts.{summary_fault_text};

    ghost output = { λ fault. Some (summary_fault_text fault) };

    fn fmt<W: fmt::Write>(&self, f: &mut fmt::Formatter<W>) -> fmt::Result {
        match *self {
            SumFault::Malformed(cause) => write!(f, "Malformed {cause}"),
            SumFault::Version(n) => write!(f, "Version {n}"),
            SumFault::BadStamp(place) => write!(f, "BadStamp {place}"),
            SumFault::BadCount { said, found } => write!(f, "BadCount said {said} found {found}"),
            SumFault::OutOfMemory => f.write_str("OutOfMemory"),
        }
    }
}

impl Error for SumFault {}
