//! The limits of a summary.

/// The most units that the rows, or the columns, have: 2^52.
pub const MOST_UNITS: u64 = 1 << 52;

/// How many elements each chunk of a text that is written has, but the last one.
pub const CHUNK_LENGTH: usize = 10_000;
