//! The intervals and the cells that a summary gives. Their places become names by the names of all unremoved
//! elements, collected once.

ghost use Rattle.std.specs.Prelude.{◌≡◌, ◌++◌, IfOk, OnOk, map, slice_get};
ghost use Rattle.ft_msg.specs.Summary.{cells_of, interval_of};
ghost use Rattle.ft_plain_summary.specs.NamedPlaces.{named_cell, named_cells, named_end, named_interval, unremoved_names};

use ft_base::moved::{all_three, push};
use ft_base::{Datum, OutOfMemory};
use ft_plain_lists::{
    ElementName, ElementNames, PlainCells, PlainElement, PlainInterval, PlainIntervals,
};
use ft_sumdoc::{CellRec, IntervalRec};
use std::alloc::Global;

// The names of the unremoved elements in order.
fn unremoved_names(alloc: Global, items: &[PlainElement]) -> Result<Vec<ElementName>, OutOfMemory>
    ensures { IfOk result (λ names. names.items ≡ unremoved_names items.now) }
{
    let mut names = Vec::new(alloc);
    for e in items {
        if e.is_unremoved() {
            push(&mut names, e.name())?;
        }
    }
    Ok(names)
}

/// The intervals on the unremoved elements at their numbers.
pub fn intervals_of(
    alloc: Global,
    items: &[PlainElement],
    recs: &[IntervalRec],
) -> Result<PlainIntervals, OutOfMemory>
    ensures { IfOk result (λ intervals. intervals ≡ map (interval_of items.now) recs.now) }
{
    let names = unremoved_names(alloc, items)?;
    named_intervals(alloc, names.as_slice(), recs)
}

// The intervals on the elements of these names.
fn named_intervals(
    alloc: Global,
    names: &[ElementName],
    recs: &[IntervalRec],
) -> Result<PlainIntervals, OutOfMemory>
    ensures { IfOk result (λ intervals. intervals ≡ map (named_interval names.now) recs.now) }
{
    let mut intervals = PlainIntervals::new(alloc);
    for rec in recs {
        intervals.push(named_interval(names, rec)?)?;
    }
    Ok(intervals)
}

// The interval on the elements of these names.
fn named_interval(names: &[ElementName], rec: &IntervalRec) -> Result<PlainInterval, OutOfMemory>
    ensures { IfOk result (λ interval. interval ≡ named_interval names.now rec.now) }
{
    let ends = named_ends(names, rec);
    let (label, id, props) = all_three(rec.label.copy(), rec.id.copy(), rec.props.copy())?;
    Ok(PlainInterval::new(label, id, &ends, props))
}

// The names at the ends of the interval.
fn named_ends(names: &[ElementName], rec: &IntervalRec) -> ElementNames
    ensures { result ≡ record { first = named_end names.now rec.now.ends.start; second = named_end names.now rec.now.ends.end } }
{
    ElementNames::new(
        named_end(names, rec.ends.start),
        named_end(names, rec.ends.end),
    )
}

// The name at an end: None exactly where it is detached or behind all.
fn named_end(names: &[ElementName], end: i64) -> Option<ElementName>
    ensures { result ≡ named_end names.now end }
{
    if end < 0 {
        return None;
    }
    name_at(names, end as u64)
}

// The name at place `i`: None exactly where `i` isn't below the length.
fn name_at(names: &[ElementName], i: u64) -> Option<ElementName>
    ensures { result ≡ slice_get names.now i }
{
    names.get(i as usize).copied()
}

/// The cells on the unremoved rows and columns at their numbers.
pub fn cells_of(
    alloc: Global,
    rows: &[PlainElement],
    cols: &[PlainElement],
    recs: &[CellRec],
) -> Result<PlainCells, OutOfMemory>
    ensures { IfOk result (λ cells. cells ≡ cells_of rows.now cols.now recs.now) }
{
    let rows = unremoved_names(alloc, rows)?;
    let cols = unremoved_names(alloc, cols)?;
    named_cells(alloc, rows.as_slice(), cols.as_slice(), recs)
}

// The cells of the rows and columns of these names.
fn named_cells(
    alloc: Global,
    rows: &[ElementName],
    cols: &[ElementName],
    recs: &[CellRec],
) -> Result<PlainCells, OutOfMemory>
    ensures { IfOk result (λ cells. cells ≡ named_cells rows.now cols.now recs.now) }
{
    let mut cells = PlainCells::new(alloc);
    for rec in recs {
        let row = name_at(rows, rec.row);
        let col = name_at(cols, rec.col);
        push_cell(&mut cells, row, col, rec)?;
    }
    Ok(cells)
}

// Adds the cell of the row and the column, if both are there.
fn push_cell(
    cells: &mut PlainCells,
    row: Option<ElementName>,
    col: Option<ElementName>,
    rec: &CellRec,
) -> Result<(), OutOfMemory>
    ensures { OnOk result (cells.new ≡ cells.old ++ named_cell row col rec.now) }
{
    if let Some(row) = row
        && let Some(col) = col
    {
        cells.push(row, col, rec.value.copy()?)?;
    }
    Ok(())
}
