//! Pending stages by their numbers.

/// Which part of a document a pending stage is on.
#[derive(Clone, Copy, Debug, PartialEq, Eq)]
pub enum Part {
    /// The elements of the text.
    Elements,
    /// The intervals of the text.
    Intervals,
    /// The rows, the columns and the cells.
    Grid,
}

/// A pending stage: its number, and the part that it is on.
#[derive(Clone, Copy, Debug, PartialEq, Eq)]
pub struct OwnStage {
    pub stage: u64,
    pub part: Part,
}
