//! A table of partial lengths.

use crate::faults::StepFault;
use crate::sights::push_count;
use ft_base::{Element, Perspective, Stamp, Stamps};
use ft_partial::Table;
use std::alloc::Global;

// A table of two elements of message 1 by connection 1 and three of message 2 by connection 2. Connection 3 removes one of the
// former by message 3, and connection 2 the same one by message 4.
fn table(alloc: Global) -> Result<Table, StepFault> {
    let mut table = Table::new(alloc);
    table.insert(1, 1, 2)?;
    table.insert(2, 2, 3)?;
    let mut e = Element {
        ins: Stamp::Acked { seq: 1, conn: 1 },
        dels: Stamps::new(alloc),
    };
    table.remove(&e, 3, 3, 1)?;
    e.dels.push(Stamp::Acked { seq: 3, conn: 3 })?;
    table.remove(&e, 4, 2, 1)?;
    Ok(table)
}

/// Adds how much four perspectives see of a table.
///
/// Returns `OutOfMemory` where there is no room for it.
pub(crate) fn push_lengths(alloc: Global, out: &mut String) -> Result<(), StepFault> {
    let table = table(alloc)?;
    for (r, c) in [(2, 1), (2, 2), (0, 2), (4, 9)] {
        push_count("length", table.length(Perspective { r, c }), out)?;
    }
    Ok(())
}
