//! References, as a tree shows them.

/// A reference: the place of its element in the whole list, None where it is detached, and whether it is
/// acknowledged.
#[derive(Clone, Copy, Drop, PartialEq, Eq)]
pub struct Reference {
    pub place: Option<u64>,
    pub acked: bool,
}
