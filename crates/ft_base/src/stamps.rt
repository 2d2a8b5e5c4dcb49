//! Stamps, and lists of stamps.

use crate::lists::{Datum, List};
use crate::memory::OutOfMemory;

/// When an insertion or a removal was made, and by whom.
#[derive(Clone, Copy, Debug, PartialEq, Eq)]
pub enum Stamp {
    /// It is sequenced: `seq` is its sequence number, 0 for what everybody sees, and `conn` the
    /// number of the connection that sent it, 0 for none.
    Acked { seq: u64, conn: u32 },
    /// It is pending: `stage` is its place among the client's own pending changes, counted from 1.
    Local { stage: u64 },
}

impl Datum for Stamp {
    fn copy(&self) -> Result<Stamp, OutOfMemory> {
        Ok(*self)
    }

    fn same(&self, other: &Stamp) -> bool {
        self == other
    }
}

/// A list of stamps.
pub type Stamps = List<Stamp>;
