//! Cells as a summary has them.

ghost use Rattle.std.specs.Prelude.{◌≡◌, ◌&&◌, ◌++◌, IfOk, OnOk, filter, not};
ghost use Rattle.ft_props.specs.Element.{has_sequenced_removal};
ghost use Rattle.ft_op.specs.Cells.{is_null};
ghost use Rattle.ft_plain_lists.specs.NameTables.{HasAnswers};

use crate::cells::{PlainCell, PlainCells};
use crate::copies::Copied;
use crate::elements::PlainElement;
use crate::moved::push_made;
use crate::name_tables::{NameTable, note_removals};
use crate::names::ElementName;
use ft_base::OutOfMemory;
use ft_base::moved::{after, both};
use ft_op::is_null;
use std::alloc::Global;

impl PlainCells {
    /// The cells whose value isn't null and whose row and column aren't removed.
    pub fn trimmed(
        &self,
        rows: &[PlainElement],
        cols: &[PlainElement],
    ) -> Result<PlainCells, OutOfMemory>
        ensures { IfOk result (λ kept. kept ≡ filter (λ c. not (is_null c.value) && not (has_sequenced_removal rows.now c.row) && not (has_sequenced_removal cols.now c.col)) self.now) }
    {
        let alloc = *self.items.allocator();
        let (gone_rows, gone_cols) = both(removals(alloc, rows), removals(alloc, cols))?;
        let mut items = Vec::new(alloc);
        let cells = self.items.as_slice();
        let done = push_kept(&mut items, cells, rows, &gone_rows, cols, &gone_cols);
        drop(gone_rows);
        drop(gone_cols);
        after(done, PlainCells { items })
    }
}

// Adds copies of the cells whose value isn't null and whose row and column aren't removed, by the same tables
// as `is_kept`.
fn push_kept(
    items: &mut Vec<PlainCell>,
    cells: &[PlainCell],
    rows: &[PlainElement],
    gone_rows: &NameTable<bool>,
    cols: &[PlainElement],
    gone_cols: &NameTable<bool>,
) -> Result<(), OutOfMemory>
    requires rows { HasAnswers (has_sequenced_removal rows.now) gone_rows.now }
    requires cols { HasAnswers (has_sequenced_removal cols.now) gone_cols.now }
    ensures { OnOk result (items.new.items ≡ items.old.items ++ filter (λ c. not (is_null c.value) && not (has_sequenced_removal rows.now c.row) && not (has_sequenced_removal cols.now c.col)) cells.now) }
{
    for cell in cells {
        if cell.is_kept(rows, gone_rows, cols, gone_cols) {
            push_made(items, cell.copied())?;
        }
    }
    Ok(())
}

impl PlainCell {
    // Whether its value isn't null and its row and its column aren't removed, by tables of which sequenced ones are.
    fn is_kept(
        &self,
        rows: &[PlainElement],
        gone_rows: &NameTable<bool>,
        cols: &[PlainElement],
        gone_cols: &NameTable<bool>,
    ) -> bool
        requires rows { HasAnswers (has_sequenced_removal rows.now) gone_rows.now }
        requires cols { HasAnswers (has_sequenced_removal cols.now) gone_cols.now }
        ensures { result ≡ (not (is_null self.now.value) && not (has_sequenced_removal rows.now self.now.row) && not (has_sequenced_removal cols.now self.now.col)) }
    {
        !is_null(&self.value)
            && !is_gone(rows, gone_rows, self.row)
            && !is_gone(cols, gone_cols, self.col)
    }
}

// A table of which sequenced elements have a sequenced removal.
fn removals(alloc: Global, items: &[PlainElement]) -> Result<NameTable<bool>, OutOfMemory>
    ensures { IfOk result (λ table. HasAnswers (has_sequenced_removal items.now) table) }
{
    let mut table = NameTable::new(alloc, items, false)?;
    note_removals(&mut table, items);
    Ok(table)
}

// Whether a removal of the element of that name is sequenced, by a table of that for the sequenced ones.
fn is_gone(items: &[PlainElement], gone: &NameTable<bool>, name: ElementName) -> bool
    requires { HasAnswers (has_sequenced_removal items.now) gone.now }
    ensures { result ≡ has_sequenced_removal items.now name }
{
    match gone.at(name) {
        Some(is_gone) => is_gone,
        None => is_removed(items, name),
    }
}

// Whether a removal of the element of that name is sequenced.
fn is_removed(items: &[PlainElement], name: ElementName) -> bool
    ensures { result ≡ has_sequenced_removal items.now name }
{
    items.iter().any(|e| e.has_name(&name) && e.is_removed())
}
