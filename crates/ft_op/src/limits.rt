//! The numbers of the types of operations, and the limit of a splice.

/// The type of an insertion of the text.
pub(crate) const INSERTION: u64 = 0;

/// The type of a removal of the text.
pub(crate) const REMOVAL: u64 = 1;

/// The type of an annotation of the text.
pub(crate) const ANNOTATION: u64 = 2;

/// The type of a group, of the text or of the grid.
pub(crate) const GROUP: u64 = 3;

/// The type of a splice that puts units in.
pub(crate) const SPLICE_IN: u64 = 0;

/// The type of a splice that takes units out.
pub(crate) const SPLICE_OUT: u64 = 1;

/// The most units that a splice puts in.
pub const SPLICE_LIMIT: u64 = 1_000_000;
