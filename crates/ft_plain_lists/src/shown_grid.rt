//! The cells that are shown.

ghost use Rattle.std.specs.Prelude.{◌≡◌, ◌++◌, [], None, IfOk, OnOk, length, map};
ghost use Rattle.ft_msg.specs.Content.{all_cells, stage_view};
ghost use Rattle.ft_plain_lists.specs.PlacedCells.{first_records, is_last};
ghost use Rattle.ft_plain_lists.specs.PlacedValues.{placed_value};

use crate::cells::PlainCells;
use crate::cells::placed::PlacedValue;
use crate::element_tests::AtStage;
use crate::elements::PlainElement;
use crate::scans::seen_count;
use ft_base::moved::after;
use ft_base::{Datum, OutOfMemory};
use ft_sumdoc::{CellRec, CellRecs};
use std::alloc::Global;

/// How many elements a client sees at its pending stage.
pub fn shown_count(items: &[PlainElement], stage: u64) -> usize
    ensures { result ≡ length (stage_view stage items.now) }
{
    seen_count(items, AtStage(stage))
}

/// The cells of the rows and columns that a client sees at its pending stage, where nothing is pending
/// on the cells themselves.
pub fn shown_cells(
    alloc: Global,
    cells: &PlainCells,
    rows: &[PlainElement],
    cols: &[PlainElement],
    stage: u64,
) -> Result<CellRecs, OutOfMemory>
    ensures { IfOk result (λ shown. shown ≡ all_cells cells.now [] (stage_view stage cols.now) 0 (stage_view stage rows.now)) }
{
    let mut shown = CellRecs::new(alloc);
    let done = push_rows(&mut shown, cells, rows, cols, stage);
    after(done, shown)
}

// Adds these cells, where none are there yet.
fn push_rows(
    shown: &mut CellRecs,
    cells: &PlainCells,
    rows: &[PlainElement],
    cols: &[PlainElement],
    stage: u64,
) -> Result<(), OutOfMemory>
    requires { shown.old ≡ [] }
    ensures { OnOk result (shown.new ≡ all_cells cells.now [] (stage_view stage cols.now) 0 (stage_view stage rows.now)) }
{
    let placed = cells.placed(cols, stage)?;
    let mut place: u64 = 0;
    for row in rows {
        if row.is_seen_at(stage) {
            push_row(shown, place, placed.of(row.name()))?;
            place += 1;
        }
    }
    Ok(())
}

// Adds the values of the row, of those at one place the first.
fn push_row(shown: &mut CellRecs, row: u64, values: &[PlacedValue]) -> Result<(), OutOfMemory>
    ensures { OnOk result (shown.new ≡ shown.old ++ first_records row None (map placed_value values.now)) }
{
    let mut last = None;
    for placed in values {
        if !is_last(last, placed.col) {
            let value = placed.value.copy()?;
            let col = placed.col;
            shown.push(CellRec { row, col, value })?;
        }
        last = Some(placed.col);
    }
    Ok(())
}

// Whether this was the last place.
fn is_last(last: Option<u64>, place: u64) -> bool
    ensures { result ≡ is_last last place }
{
    last == Some(place)
}
