//! Tables of answers for the ends of intervals.

ghost use Rattle.std.specs.Prelude.{IfOk};
ghost use Rattle.ft_plain_lists.specs.NameTables.{HasAnswers};

use crate::elements::PlainElement;
use crate::intervals::PlainInterval;
use crate::name_tables::NameTable;
use ft_base::OutOfMemory;
use std::alloc::Global;

/// A table with one value for each sequenced element, and for each pending one on which an end of the intervals is.
pub fn table_of_ends<V: Copy + Drop>(
    alloc: Global,
    items: &[PlainElement],
    intervals: &[PlainInterval],
    value: V,
) -> Result<NameTable<V>, OutOfMemory>
    ensures { IfOk result (λ table. HasAnswers (λ x. value) table) }
{
    let mut table = NameTable::new(alloc, items, value)?;
    for i in intervals {
        table.ask(i.start(), value)?;
        table.ask(i.end(), value)?;
    }
    Ok(table)
}
