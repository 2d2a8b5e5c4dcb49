//! The limits of what is read and kept.

/// The greatest count: 2^53 - 1, up to which a double holds each whole number.
pub const GREATEST_COUNT: u64 = (1 << 53) - 1;

/// The same as a signed number, the greatest number of a field.
pub const GREATEST_NUMBER: i64 = (1 << 53) - 1;

/// The most levels of a value that is kept.
pub const MOST_LEVELS: usize = 100;
