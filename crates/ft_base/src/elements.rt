//! The stamps of an element, and the perspectives from which elements are seen.

use crate::lists::Datum;
use crate::memory::OutOfMemory;
use crate::stamps::{Stamp, Stamps};

/// The stamps of an element of the text, the rows or the columns. An element that was removed stays
/// in its list as a tombstone.
#[derive(Drop)]
pub struct Element {
    /// Its insertion.
    pub ins: Stamp,
    /// Its removals, sequenced ones by rising number, then at most one that is pending.
    pub dels: Stamps,
}

impl Datum for Element {
    fn copy(&self) -> Result<Element, OutOfMemory> {
        Ok(Element {
            ins: self.ins,
            dels: self.dels.copy()?,
        })
    }

    fn same(&self, other: &Element) -> bool {
        self.ins == other.ins && self.dels.same(&other.dels)
    }
}

/// What the sender of a message had seen: all messages with a number at most `r`, and its own.
#[derive(Clone, Copy, Debug, PartialEq, Eq)]
pub struct Perspective {
    /// The reference sequence number.
    pub r: u64,
    /// The number of the connection.
    pub c: u32,
}
