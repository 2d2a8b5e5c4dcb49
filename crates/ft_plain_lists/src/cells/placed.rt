//! Where the cells stand among the shown rows and columns.

ghost use Rattle.std.specs.Prelude.{◌≡◌, ◌++◌, [], IfOk, OnOk, filter, map};
ghost use Rattle.ft_props.specs.Element.{ElementId, same_id};
ghost use Rattle.ft_msg.specs.Content.{stage_view};
ghost use Rattle.ft_plain_lists.specs.NamedLists.{listed};
ghost use Rattle.ft_plain_lists.specs.PlacedCells.{placed_at, placed_cells};
ghost use Rattle.ft_plain_lists.specs.PlacedValues.{cell_behind, placed_value};

use crate::cells::{PlainCell, PlainCells};
use crate::elements::PlainElement;
use crate::named_lists::NamedLists;
use crate::names::ElementName;
use ft_base::OutOfMemory;
use ft_base::moved::after;
use ft_json::ValText;
use std::alloc::Global;

/// The value of a cell, with the place of its column among the shown ones.
#[derive(Clone, Copy)]
pub(crate) struct PlacedValue<'a> {
    pub col: u64,
    pub value: &'a ValText,
}

impl PlainCell {
    // The row that it belongs to.
    fn row(&self) -> ElementName
        ensures { result ≡ self.now.row }
    {
        self.row
    }

    // The column that it belongs to.
    fn col(&self) -> ElementName
        ensures { result ≡ self.now.col }
    {
        self.col
    }

    // Its value.
    fn value(&self) -> &ValText
        ensures { result.now ≡ self.now.value }
    {
        &self.value
    }
}

impl PlainCells {
    /// The values of each row from left to right, in the columns that a client sees at its pending stage. Each cell is
    /// looked up twice by a name, and each column once.
    pub(crate) fn placed(
        &self,
        cols: &[PlainElement],
        stage: u64,
    ) -> Result<NamedLists<PlacedValue<'_>>, OutOfMemory>
        ensures { IfOk result (λ rows. (x : ElementId) → map placed_value (listed x rows.lists) ≡ placed_cells self.now x 0 (stage_view stage cols.now)) }
    {
        let alloc = *self.items.allocator();
        let columns = by_column(alloc, self.items.as_slice())?;
        let mut rows = NamedLists::new(alloc);
        let done = self.place_columns(&mut rows, &columns, cols, stage);
        drop(columns);
        after(done, rows)
    }

    // Adds the cells of the shown columns to their rows, where `columns` are these cells by column.
    fn place_columns<'a>(
        &self,
        rows: &mut NamedLists<PlacedValue<'a>>,
        columns: &NamedLists<&'a PlainCell>,
        cols: &[PlainElement],
        stage: u64,
    ) -> Result<(), OutOfMemory>
        requires rows { (x : ElementId) → listed x rows.old.lists ≡ [] }
        requires columns { (x : ElementId) → map cell_behind (listed x columns.now.lists) ≡ filter (λ cell. same_id x cell.col) self.now }
        ensures { OnOk result ((x : ElementId) → map placed_value (listed x rows.new.lists) ≡ placed_cells self.now x 0 (stage_view stage cols.now)) }
    {
        let mut place: u64 = 0;
        for col in cols {
            if col.is_seen_at(stage) {
                place_column(rows, place, columns.of(col.name()))?;
                place += 1;
            }
        }
        Ok(())
    }
}

// The cells of each column, in their order.
fn by_column<'a>(
    alloc: Global,
    cells: &'a [PlainCell],
) -> Result<NamedLists<&'a PlainCell>, OutOfMemory>
    ensures { IfOk result (λ columns. (x : ElementId) → map cell_behind (listed x columns.lists) ≡ filter (λ cell. same_id x cell.col) cells.now) }
{
    let mut columns = NamedLists::new(alloc);
    for cell in cells {
        columns.add(cell.col(), cell)?;
    }
    Ok(columns)
}

// Adds the cells of the column, which is shown at this place, to their rows.
fn place_column<'a>(
    rows: &mut NamedLists<PlacedValue<'a>>,
    place: u64,
    cells: &[&'a PlainCell],
) -> Result<(), OutOfMemory>
    ensures { OnOk result ((x : ElementId) → map placed_value (listed x rows.new.lists) ≡ map placed_value (listed x rows.old.lists) ++ map (placed_at place) (filter (λ cell. same_id x cell.row) (map cell_behind cells.now))) }
{
    for cell in cells {
        let cell: &'a PlainCell = cell;
        let value = cell.value();
        rows.add(cell.row(), PlacedValue { col: place, value })?;
    }
    Ok(())
}
