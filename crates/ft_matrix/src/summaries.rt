//! A table from a summary, and what a summary has of a table.

ghost use Rattle.std.specs.Prelude.{◌≡◌, ◌≤◌, [], IfOk, IsTrue, OnOk, nat_le, true};
ghost use Rattle.std.specs.List.{list_all};
ghost use Rattle.ft_block.specs.declared.leaves.LenView.TheVariants.{Stage};
ghost use Rattle.ft_perm.specs.Vectors.{seen_handles};
ghost use Rattle.ft_sumdoc.specs.Valid.{IsValidSummary};
ghost use Rattle.ft_matrix.specs.Empty.{IsEmptyGrid};
ghost use Rattle.ft_matrix.specs.Loaded.{LoadsCell, LoadsCells, LoadsGrid, LoadsRun, LoadsUnits};
ghost use Rattle.ft_matrix.specs.Sound.{IsSoundVector};
ghost use Rattle.ft_matrix.specs.Units.{units_of};

use crate::grid::Grid;
use crate::messages::more;
use crate::splices::fresh_handles;
use ft_base::{Datum, OutOfMemory};
use ft_block::LenView;
use ft_cells::Cells;
use ft_marks::element_of;
use ft_perm::Vector;
use ft_props::Props;
use ft_sumdoc::{CellRec, RunRec, SumDoc};

impl Grid {
    /// Fills an empty grid with what a summary has.
    ///
    /// Returns `OutOfMemory` where there is no room for it, and then the grid may be used no more.
    pub fn load(&mut self, doc: &SumDoc) -> Result<(), OutOfMemory>
        requires valid { IsValidSummary doc.now }
        requires empty { IsEmptyGrid self.old }
        ensures { OnOk result (LoadsGrid doc.now self.new) }
    {
        self.rows_made = load_units(&mut self.rows, doc.rows.as_slice())?;
        self.cols_made = load_units(&mut self.cols, doc.cols.as_slice())?;
        self.load_cells(doc.cells.as_slice())
    }

    // Writes the cells of a summary, each on the unremoved row and column at its places.
    fn load_cells(&mut self, cells: &[CellRec]) -> Result<(), OutOfMemory>
        requires usable { IsTrue self.old.rows.tree.usable × IsTrue self.old.cols.tree.usable }
        ensures { OnOk result (LoadsCells cells.now self.old self.new) }
    {
        for cell in cells {
            load_cell(&mut self.cells, &self.rows, &self.cols, cell)?;
        }
        Ok(())
    }
}

// Writes a cell of a summary on the unremoved row and column at its places, unless that has a value already.
fn load_cell(
    cells: &mut Cells,
    rows: &Vector,
    cols: &Vector,
    cell: &CellRec,
) -> Result<(), OutOfMemory>
    requires usable { IsTrue rows.now.tree.usable × IsTrue cols.now.tree.usable }
    ensures { OnOk result (LoadsCell (seen_handles (Stage 0) rows.now.tree) (seen_handles (Stage 0) cols.now.tree) cell.now cells.old cells.new) }
{
    let unremoved = LenView::Stage(0);
    let Some(row) = rows.handle_at(unremoved, cell.row) else {
        return Ok(());
    };
    let Some(col) = cols.handle_at(unremoved, cell.col) else {
        return Ok(());
    };
    if cells.get(row, col).is_some() {
        return Ok(());
    }
    cells.set_acked(row, col, cell.value.copy()?)
}

// Puts the units of runs at the end of a vector, and returns how many they are.
fn load_units(units: &mut Vector, runs: &[RunRec]) -> Result<u64, OutOfMemory>
    requires sound { IsSoundVector units.old }
    requires some { list_all (λ run. nat_le 1 run.count) runs.now ≡ true }
    requires empty { units_of units.old ≡ [] }
    ensures sound { OnOk result (IsSoundVector units.new) }
    ensures loads { IfOk result (λ made. LoadsUnits runs.now made units.old units.new) }
{
    let mut made: u64 = 0;
    for run in runs {
        load_run(units, run)?;
        made = more(made, run.count)?;
    }
    Ok(made)
}

// Puts the units of a run at the end of a vector.
fn load_run(units: &mut Vector, run: &RunRec) -> Result<(), OutOfMemory>
    requires sound { IsSoundVector units.old }
    requires some { 1 ≤ run.now.count }
    ensures sound { OnOk result (IsSoundVector units.new) }
    ensures loads { OnOk result (LoadsRun run.now units.old units.new) }
{
    let content = fresh_handles(units, run.count)?;
    let alloc = units.tree.allocator();
    let stamps = element_of(alloc, run.ins, &run.dels)?;
    let props = Props::new(alloc);
    units.tree.append(content, &props, stamps)
}
