//! What is shown of a table.

ghost use Rattle.std.specs.Prelude.{◌≡◌, ◌<◌, [], ℕ, List, IfOk, OnOk, map};
ghost use Rattle.std.specs.BTreeMap as tree;
ghost use Rattle.ft_matrix.specs.Seen.{ArePlaced, HoldsRuns, PlacesCell, cell_of, place_cmp, shown_at, shown_cells};
ghost use Rattle.ft_matrix.specs.Sound.{IsSound};

use crate::grid::Grid;
use crate::moved::put_over;
use crate::seen::{SeenRuns, seen_runs};
use ft_base::moved::after;
use ft_base::{Datum, OutOfMemory};
use ft_cells::{CellKey, Cells};
use ft_json::ValText;
use ft_sumdoc::{CellRec, CellRecs};
use std::alloc::Global;
use std::collections::BTreeMap;

impl Grid {
    /// The cells that are shown, by rising row and column.
    pub fn shown_cells(&self, alloc: Global) -> Result<CellRecs, OutOfMemory>
        requires { IsSound self.now }
        ensures { IfOk result (λ cells. cells ≡ shown_cells self.now) }
    {
        let rows = seen_runs(&self.rows.tree)?;
        let cols = seen_runs(&self.cols.tree)?;
        let placed = placed_cells(alloc, &self.cells, &rows, &cols)?;
        listed(alloc, placed)
    }
}

// Puts the shown value of a cell at its place, if it has one and its row and its column are seen.
fn place_cell(
    cells: &Cells,
    rows: &SeenRuns,
    cols: &SeenRuns,
    key: CellKey,
    placed: &mut BTreeMap<(u64, u64), ValText>,
) -> Result<(), OutOfMemory>
    ensures { OnOk result (PlacesCell cells.now rows.now cols.now key placed.old placed.new) }
{
    let Some(row) = rows.place_of(key.row) else {
        return Ok(());
    };
    let Some(col) = cols.place_of(key.col) else {
        return Ok(());
    };
    let Some(value) = cells.get(key.row, key.col) else {
        return Ok(());
    };
    let value = value.copy()?;
    put_over(placed, (row, col), value)
}

// The shown values of cells by their places.
fn placed_cells(
    alloc: Global,
    cells: &Cells,
    rows: &SeenRuns,
    cols: &SeenRuns,
) -> Result<BTreeMap<(u64, u64), ValText>, OutOfMemory>
    ensures { IfOk result (λ placed. (hs gs : List ℕ) → HoldsRuns hs rows.now → HoldsRuns gs cols.now → ArePlaced (shown_at cells.now) hs gs placed) }
{
    let mut placed = BTreeMap::new(alloc);
    let done = place_cells(cells, rows, cols, &mut placed);
    after(done, placed)
}

// Puts the shown values of cells at their places.
fn place_cells(
    cells: &Cells,
    rows: &SeenRuns,
    cols: &SeenRuns,
    placed: &mut BTreeMap<(u64, u64), ValText>,
) -> Result<(), OutOfMemory>
    requires { placed.old.entries ≡ [] }
    ensures { OnOk result ((hs gs : List ℕ) → HoldsRuns hs rows.now → HoldsRuns gs cols.now → ArePlaced (shown_at cells.now) hs gs placed.new) }
{
    let keys = cells.keys()?;
    for key in &keys {
        place_cell(cells, rows, cols, *key, placed)?;
    }
    Ok(())
}

// Values at places as cells, by rising row and column.
fn listed(alloc: Global, placed: BTreeMap<(u64, u64), ValText>) -> Result<CellRecs, OutOfMemory>
    ensures cells { IfOk result (λ cells. cells ≡ map cell_of placed.entries) }
    ensures ordered { IfOk result (λ cells. tree.IsOrdered place_cmp placed) }
{
    let mut cells = CellRecs::new(alloc);
    for ((row, col), value) in placed {
        cells.push(CellRec { row, col, value })?;
    }
    Ok(cells)
}
