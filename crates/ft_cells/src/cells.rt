//! Cells by pairs of handles.

ghost use Rattle.std.specs.Prelude.{◌≡◌, ℕ, ◌<◌, All, IfOk, OnOk, OnErr, IsOk, option_copied};
ghost use Rattle.std.specs.List.Sorted.{IsStrictlySortedBy};
ghost use Rattle.ft_base.specs.Scan.{len, one_more_if};
ghost use Rattle.ft_cells.specs.CellTables.{cell_at, changed_cell, cleared_col, cleared_cols, cleared_row, cleared_rows, empty_cell, holds_value, is_key, key_cmp};

mod entries;

use crate::crossings::Crossing;
use crate::values::CellValues;
use entries::{ack_at, clear_across, clear_lines, drop_at, set_at, write_at};
use ft_base::OutOfMemory;
use ft_json::ValText;
use std::alloc::Global;
use std::collections::{BTreeMap, BTreeSet};
use std::marker::Model;

/// The handles of a cell's row and column.
#[derive(Clone, Copy, Debug, PartialEq, Eq)]
pub struct CellKey {
    pub row: u64,
    pub col: u64,
}

/// Cells by the handles of their row and column: for each pair an acknowledged value, and pending writes on top of it by
/// rising stage.
///
/// They are kept in order of row and column; the places alone are kept in order of column and row too, and by stage.
/// So the calls that clear lines look at the cells of these lines alone, however many lines they are, and `ack` and
/// `drop_pending` at the one cell that the stage writes; each look-up among n cells takes about log(n) steps, and as many among the
/// pending writes of a cell, of which the first and the last are taken out at once. A pair whose pending writes were all taken
/// out keeps its empty entry until its row or its column is cleared.
#[derive(Drop)]
pub struct Cells {
    alloc: Global,
    cells: BTreeMap<Crossing, CellValues>,
    columns: BTreeSet<Crossing>,
    stages: BTreeMap<u64, Crossing>,
}

impl Model for Cells {
    ghost use Rattle.ft_cells.specs.CellTables.{CellList};
    ghost use Rattle.ft_cells.specs.Indexed.{IsIndexed, table_of};

    ghost Value = { CellList };

    ghost view = { λ a. a.cells.entries };

    ghost invariant = { λ a. IsIndexed (table_of a.cells) a.columns a.stages };
}

impl Cells {
    ghost use Rattle.ft_cells.specs.CellTables.{acked_write, shown_value, with_acked, with_write, without_write};

    /// No cells.
    pub fn new(alloc: Global) -> Cells
        ensures { (row col : ℕ) → cell_at result row col ≡ empty_cell }
    {
        Cells {
            alloc,
            cells: BTreeMap::new(alloc),
            columns: BTreeSet::new(alloc),
            stages: BTreeMap::new(alloc),
        }
    }

    /// Sets the acknowledged value of the cell, below its pending writes. A null is kept as a value.
    ///
    /// Returns `OutOfMemory` where there is no room for it, and then each cell is as it was.
    pub fn set_acked(&mut self, row: u64, col: u64, value: ValText) -> Result<(), OutOfMemory>
        ensures ok { OnOk result ((r c : ℕ) → cell_at self.new r c ≡ changed_cell row col (with_acked value) (cell_at self.old) r c) }
        ensures err { OnErr result ((r c : ℕ) → cell_at self.new r c ≡ cell_at self.old r c) }
    {
        self.columns.insert(Crossing {
            line: col,
            across: row,
        })?;
        set_at(
            &mut self.cells,
            self.alloc,
            Crossing {
                line: row,
                across: col,
            },
            value,
        )
    }

    /// Adds a pending write to the cell. Its stage is above all that are pending in any cell.
    ///
    /// Returns `OutOfMemory` where there is no room for it, and then each cell is as it was.
    pub fn set_pending(
        &mut self,
        row: u64,
        col: u64,
        stage: u64,
        value: ValText,
    ) -> Result<(), OutOfMemory>
        requires { (r c : ℕ) → All (λ write. write.0 < stage) (cell_at self.old r c).pending }
        ensures ok { OnOk result ((r c : ℕ) → cell_at self.new r c ≡ changed_cell row col (with_write stage value) (cell_at self.old) r c) }
        ensures err { OnErr result ((r c : ℕ) → cell_at self.new r c ≡ cell_at self.old r c) }
    {
        let place = Crossing {
            line: row,
            across: col,
        };
        self.columns.insert(Crossing {
            line: col,
            across: row,
        })?;
        self.stages.insert(stage, place)?;
        write_at(&mut self.cells, self.alloc, place, stage, value)
    }

    /// Makes the pending write of that stage, if there is one, the acknowledged value of its cell. It returns Ok always.
    pub fn ack(&mut self, stage: u64) -> Result<(), OutOfMemory>
        ensures ok { IsOk result }
        ensures acked { (r c : ℕ) → cell_at self.new r c ≡ acked_write stage (cell_at self.old r c) }
    {
        if let Some(place) = self.stages.remove(&stage) {
            ack_at(&mut self.cells, place, stage);
        }
        Ok(())
    }

    /// Takes the pending write of that stage out, if there is one.
    pub fn drop_pending(&mut self, stage: u64)
        ensures { (r c : ℕ) → cell_at self.new r c ≡ without_write stage (cell_at self.old r c) }
    {
        if let Some(place) = self.stages.remove(&stage) {
            drop_at(&mut self.cells, place, stage);
        }
    }

    /// The last pending value of the cell, else the acknowledged one: None exactly where neither is there or it is null.
    pub fn get(&self, row: u64, col: u64) -> Option<&ValText>
        ensures { option_copied result ≡ shown_value (cell_at self.now row col) }
    {
        let place = Crossing {
            line: row,
            across: col,
        };
        self.cells.get(&place)?.shown()
    }

    /// Takes all cells of that row out.
    pub fn clear_row(&mut self, row: u64)
        ensures { (r c : ℕ) → cell_at self.new r c ≡ cleared_row row (cell_at self.old) r c }
    {
        self.clear_rows(row, 1);
    }

    /// Takes all cells of that column out.
    pub fn clear_col(&mut self, col: u64)
        ensures { (r c : ℕ) → cell_at self.new r c ≡ cleared_col col (cell_at self.old) r c }
    {
        self.clear_cols(col, 1);
    }

    /// Takes all cells of the `count` rows from `first` on out. It looks at the cells that are there, not at each row.
    pub fn clear_rows(&mut self, first: u64, count: u64)
        ensures { (r c : ℕ) → cell_at self.new r c ≡ cleared_rows first count (cell_at self.old) r c }
    {
        clear_lines(&mut self.cells, &mut self.columns, first, count);
    }

    /// Takes all cells of the `count` columns from `first` on out. It looks at the cells that are there, not at each column.
    pub fn clear_cols(&mut self, first: u64, count: u64)
        ensures { (r c : ℕ) → cell_at self.new r c ≡ cleared_cols first count (cell_at self.old) r c }
    {
        clear_across(&mut self.cells, &mut self.columns, first, count);
    }

    /// The pairs of handles that have an acknowledged or a pending value, null or not, by rising row and column.
    pub fn keys(&self) -> Result<Vec<CellKey>, OutOfMemory>
        ensures each_once { IfOk result (λ keys. (row col : ℕ)
            → len (is_key row col) keys.items ≡ one_more_if (holds_value (cell_at self.now row col)) 0) }
        ensures rising { IfOk result (λ keys. IsStrictlySortedBy key_cmp keys.items) }
    {
        let mut keys = Vec::new(self.alloc);
        for (place, cell) in &self.cells {
            if cell.holds_value() {
                keys.push(CellKey {
                    row: place.line,
                    col: place.across,
                })?;
            }
        }
        Ok(keys)
    }
}
