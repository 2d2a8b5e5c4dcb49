//! Documents of given parts.

ghost use Rattle.std.specs.Prelude.{◌≡◌, ◌<◌, ◌^◌};

use crate::documents::PlainDocument;
use ft_plain_lists::{PlainCells, PlainIntervals, PlainList};

/// The text of a document with its intervals.
#[derive(Drop)]
pub struct TextParts {
    pub items: PlainList,
    pub intervals: PlainIntervals,
}

/// The rows and the columns of a document with their cells.
#[derive(Drop)]
pub struct GridParts {
    pub rows: PlainList,
    pub cols: PlainList,
    pub cells: PlainCells,
}

/// The numbers of a document: how many sub-operations were skipped, how many messages were for others, its
/// last number and its last minimum.
#[derive(Clone, Copy, Debug, PartialEq, Eq)]
pub struct DocumentNumbers {
    pub skipped: u64,
    pub other: u64,
    pub number: u64,
    pub minimum: u64,
}

impl PlainDocument {
    /// The document of these parts.
    pub fn of(text: TextParts, grid: GridParts, numbers: DocumentNumbers) -> PlainDocument
        requires number { numbers.number < 2 ^ 53 }
        requires minimum { numbers.minimum < 2 ^ 53 }
        ensures { result ≡ record {
          text = text.items;
          rows = grid.rows;
          cols = grid.cols;
          intervals = text.intervals;
          cells = grid.cells;
          skipped = numbers.skipped;
          other = numbers.other;
          number = numbers.number;
          minimum = numbers.minimum;
        } }
    {
        PlainDocument {
            text: text.items,
            rows: grid.rows,
            cols: grid.cols,
            intervals: text.intervals,
            cells: grid.cells,
            skipped: numbers.skipped,
            other: numbers.other,
            number: numbers.number,
            minimum: numbers.minimum,
        }
    }
}
