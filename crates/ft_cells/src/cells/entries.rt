//! The entries of cells, without their stages.

ghost use Rattle.std.specs.Prelude.{◌≡◌, ℕ, ◌<◌, ◌&&◌, All, IsSome, OnOk, OnErr, nat_eq, not, true};
ghost use Rattle.std.specs.BTreeMap as tree;
ghost use Rattle.std.specs.BTreeMap.{btree_map_len};
ghost use Rattle.std.specs.BTreeSet.{btree_set_len};
ghost use Rattle.ft_cells.specs.CellTables.{acked_write, changed_cell, cleared_cols, cleared_rows, crossing, crossing_cmp, empty_cell, with_acked, with_write, without_write};
ghost use Rattle.ft_cells.specs.Indexed.{IsColumned, has_place, table_of};

use crate::crossings::{Crossing, first_cell, first_place};
use crate::values::CellValues;
use ft_base::OutOfMemory;
use ft_json::ValText;
use std::alloc::Global;
use std::collections::{BTreeMap, BTreeSet};

/// Sets the acknowledged value of the cell there.
pub fn set_at(
    cells: &mut BTreeMap<Crossing, CellValues>,
    alloc: Global,
    place: Crossing,
    value: ValText,
) -> Result<(), OutOfMemory>
    ensures ok { OnOk result ((r c : ℕ) → table_of cells.new r c ≡ changed_cell place.line place.across (with_acked value) (table_of cells.old) r c) }
    ensures err { OnErr result ((r c : ℕ) → table_of cells.new r c ≡ table_of cells.old r c) }
{
    let cell = cells.entry(place)?.or_insert(CellValues::new(alloc));
    cell.set_acked(value);
    Ok(())
}

/// Adds a pending write to the cell there. Its stage is above those that are pending in it.
pub fn write_at(
    cells: &mut BTreeMap<Crossing, CellValues>,
    alloc: Global,
    place: Crossing,
    stage: u64,
    value: ValText,
) -> Result<(), OutOfMemory>
    requires { All (λ write. write.0 < stage) (table_of cells.old place.line place.across).pending }
    ensures ok { OnOk result ((r c : ℕ) → table_of cells.new r c ≡ changed_cell place.line place.across (with_write stage value) (table_of cells.old) r c) }
    ensures err { OnErr result ((r c : ℕ) → table_of cells.new r c ≡ table_of cells.old r c) }
{
    let cell = cells.entry(place)?.or_insert(CellValues::new(alloc));
    cell.write(stage, value)
}

/// Acknowledges the write of that stage in the cell there.
pub fn ack_at(cells: &mut BTreeMap<Crossing, CellValues>, place: Crossing, stage: u64)
    ensures { (r c : ℕ) → table_of cells.new r c ≡ changed_cell place.line place.across (acked_write stage) (table_of cells.old) r c }
{
    if let Some(cell) = cells.get_mut(&place) {
        cell.ack(stage);
    }
}

/// Takes the write of that stage out of the cell there.
pub fn drop_at(cells: &mut BTreeMap<Crossing, CellValues>, place: Crossing, stage: u64)
    ensures { (r c : ℕ) → table_of cells.new r c ≡ changed_cell place.line place.across (without_write stage) (table_of cells.old) r c }
{
    if let Some(cell) = cells.get_mut(&place) {
        cell.drop_pending(stage);
    }
}

// Takes the cell of that row and column out.
fn take_out(
    cells: &mut BTreeMap<Crossing, CellValues>,
    columns: &mut BTreeSet<Crossing>,
    row: u64,
    col: u64,
)
    ensures cells { (r c : ℕ) → table_of cells.new r c ≡ changed_cell row col (λ _. empty_cell) (table_of cells.old) r c }
    ensures columns { (r c : ℕ) → has_place columns.new c r ≡ has_place columns.old c r && not (nat_eq r row && nat_eq c col) }
    ensures fewer_cells { IsSome (tree.get crossing_cmp cells.old (crossing row col)) → btree_map_len cells.new < btree_map_len cells.old }
    ensures fewer_places { has_place columns.old col row ≡ true → btree_set_len columns.new < btree_set_len columns.old }
{
    let _ = cells.remove(&Crossing {
        line: row,
        across: col,
    });
    columns.remove(&Crossing {
        line: col,
        across: row,
    });
}

/// Takes the cells of the `count` rows from this one on out.
pub fn clear_lines(
    cells: &mut BTreeMap<Crossing, CellValues>,
    columns: &mut BTreeSet<Crossing>,
    row: u64,
    count: u64,
)
    requires { IsColumned (table_of cells.old) columns.old }
    ensures cells { (r c : ℕ) → table_of cells.new r c ≡ cleared_rows row count (table_of cells.old) r c }
    ensures columns { IsColumned (table_of cells.new) columns.new }
{
    while let Some(place) = first_cell(cells, row, count) {
        take_out(cells, columns, place.line, place.across);
    }
}

/// Takes the cells of the `count` columns from this one on out.
pub fn clear_across(
    cells: &mut BTreeMap<Crossing, CellValues>,
    columns: &mut BTreeSet<Crossing>,
    col: u64,
    count: u64,
)
    requires { IsColumned (table_of cells.old) columns.old }
    ensures cells { (r c : ℕ) → table_of cells.new r c ≡ cleared_cols col count (table_of cells.old) r c }
    ensures columns { IsColumned (table_of cells.new) columns.new }
{
    while let Some(place) = first_place(columns, col, count) {
        take_out(cells, columns, place.across, place.line);
    }
}
