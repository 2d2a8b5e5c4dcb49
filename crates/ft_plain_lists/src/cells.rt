//! The cells of a plain replica.

ghost use Rattle.std.specs.Prelude.{◌≡◌, [], OnOk, OnErr, filter, not};
ghost use Rattle.ft_op.specs.Cells.{is_cell, put_cell, write_cell};
ghost use Rattle.ft_plain_lists.specs.Places.{found_place};

mod building;
mod copies;
pub(crate) mod placed;
mod trimming;

use crate::moved::set_or_insert;
use crate::names::ElementName;
use ft_base::{Datum, OutOfMemory};
use ft_json::ValText;
use ft_op::is_null;
use std::alloc::Global;
use std::marker::Model;

/// A cell that has a value. It belongs to a row unit and a column unit.
#[derive(Drop)]
pub struct PlainCell {
    row: ElementName,
    col: ElementName,
    value: ValText,
}

impl Model for PlainCell {
    ghost use Rattle.ft_op.specs.Cells.{Cell};

    ghost Value = { Cell };

    ghost view = { λ a. record { row = a.row; col = a.col; value = a.value } };
}

impl PlainCell {
    // Whether it is the cell of that row and column.
    fn is_at(&self, row: ElementName, col: ElementName) -> bool
        ensures { result ≡ is_cell row col self.now }
    {
        row.same(&self.row) && col.same(&self.col)
    }
}

/// Cells in the order of their first write.
#[derive(Drop)]
pub struct PlainCells {
    items: Vec<PlainCell>,
}

impl Model for PlainCells {
    ghost use Rattle.std.specs.Prelude.{List};
    ghost use Rattle.ft_op.specs.Cells.{Cell};

    ghost Value = { List Cell };

    ghost view = { λ a. a.items.items };
}

impl PlainCells {
    /// No cells.
    pub fn new(alloc: Global) -> PlainCells
        ensures { result ≡ [] }
    {
        PlainCells {
            items: Vec::new(alloc),
        }
    }

    /// Writes the value to the cell of that row and column; null takes the cell out.
    ///
    /// Returns `OutOfMemory` where there is no room for it, and then nothing changed.
    pub fn write(
        &mut self,
        row: ElementName,
        col: ElementName,
        value: &ValText,
    ) -> Result<(), OutOfMemory>
        ensures ok { OnOk result (self.new ≡ write_cell (record { row = row; col = col; value = value.now }) self.old) }
        ensures err { OnErr result (self.new ≡ self.old) }
    {
        if is_null(value) {
            self.take_out(row, col);
            return Ok(());
        }
        let value = value.copy()?;
        self.put(PlainCell { row, col, value })
    }

    // Takes the cell of that row and column out, if it is there.
    fn take_out(&mut self, row: ElementName, col: ElementName)
        ensures { self.new ≡ filter (λ other. not (is_cell row col other)) self.old }
    {
        self.items.retain(|other| !other.is_at(row, col));
    }

    // Puts the cell in place of the one of its row and column, or behind all.
    //
    // Returns `OutOfMemory` where there is no room for it, and then nothing changed.
    fn put(&mut self, cell: PlainCell) -> Result<(), OutOfMemory>
        ensures ok { OnOk result (self.new ≡ put_cell cell self.old) }
        ensures err { OnErr result (self.new ≡ self.old) }
    {
        let place = cell_place(self.items.as_slice(), cell.row, cell.col);
        set_or_insert(&mut self.items, place, cell)
    }
}

// The place of the cell of that row and column, or else, as an error, the one behind all.
fn cell_place(cells: &[PlainCell], row: ElementName, col: ElementName) -> Result<usize, usize>
    ensures { result ≡ found_place (is_cell row col) cells.now }
{
    for (i, cell) in cells.iter().enumerate() {
        if cell.is_at(row, col) {
            return Ok(i);
        }
    }
    Err(cells.len())
}
