//! Whether summaries are valid.

ghost use Rattle.std.specs.Prelude.{◌≡◌, ◌↔◌, ◌<◌, ◌≤◌, ◌^◌, ◌&&◌, IsTrue, IfOk, nat_le};
ghost use Rattle.std.specs.List.{AllByRecursion};
ghost use Rattle.ft_op.specs.WellFormed.{is_count};
ghost use Rattle.ft_sumdoc.specs.Forms.{rises};
ghost use Rattle.ft_sumdoc.specs.Items.{bounds_in};
ghost use Rattle.ft_sumdoc.specs.Runs.{unit_count, unremoved_units};
ghost use Rattle.ft_sumdoc.specs.Segments.{text_length, unremoved_text};
ghost use Rattle.ft_sumdoc.specs.Valid.{AreRuns, HasValues, IsCell, IsInterval, IsSegment, IsValidSummary, IsValue, are_stamps, bounds, is_author, is_cell_before, is_interval_before, is_run, is_segment_body};

use crate::chunks::body_len;
use crate::head_reading::are_distinct;
use crate::items::Limits;
use crate::limits::MOST_UNITS;
use crate::shown_reading::{are_shown_ends, is_name_before, is_place_before};
use crate::stamp_tests::{are_removals, is_old, is_recent};
use crate::summary::{CellRec, IntervalRec, Mark, RunRec, Seg, SegRec, SumDoc};
use crate::summary_reading::{shown_len, shown_units};
use crate::writing::is_universal;
use ft_base::OutOfMemory;
use ft_json::{GREATEST_COUNT, ValText};
use ft_op::{is_count, is_null};
use ft_props::Props;
use std::alloc::Global;

/// Whether the summary is valid, as each is that is read: its numbers, stamps, ends and places are
/// in range, names, intervals and cells are in order, and each value has at most 100 levels and isn't
/// null.
///
/// Returns `OutOfMemory` where there is no room to tell whether a name or a connection stands twice.
pub fn is_valid(alloc: Global, doc: &SumDoc) -> Result<bool, OutOfMemory>
    ensures { IfOk result (λ valid. IsTrue valid ↔ IsValidSummary doc.now) }
{
    if !has_valid_numbers(doc) {
        return Ok(false);
    }
    if !are_distinct(alloc, doc.conns.as_slice())? {
        return Ok(false);
    }
    if !are_valid_segments(alloc, limits_of(doc), doc.text.as_slice())? {
        return Ok(false);
    }
    if !are_valid_runs(alloc, limits_of(doc), doc.rows.as_slice())? {
        return Ok(false);
    }
    if !are_valid_runs(alloc, limits_of(doc), doc.cols.as_slice())? {
        return Ok(false);
    }
    Ok(is_valid_shown(doc))
}

// Whether the numbers are in range, that of the elements of the text too.
fn has_valid_numbers(doc: &SumDoc) -> bool
    ensures { result ≡ (is_count doc.now.seq && nat_le doc.now.min doc.now.seq && is_count doc.now.skipped
        && is_count doc.now.other && is_count (text_length doc.now.text)) }
{
    is_count(doc.seq)
        && doc.min <= doc.seq
        && is_count(doc.skipped)
        && is_count(doc.other)
        && has_few_elements(doc.text.as_slice())
}

// Whether the elements of the segments are at most 2^53 - 1.
fn has_few_elements(segs: &[SegRec]) -> bool
    ensures { result ≡ is_count (text_length segs.now) }
{
    let mut left = GREATEST_COUNT;
    for seg in segs {
        let elements = body_len(&seg.body) as u64;
        if elements > left {
            return false;
        }
        left -= elements;
    }
    true
}

// What the stamps are tested with.
fn limits_of(doc: &SumDoc) -> Limits
    ensures { bounds_in result ≡ bounds doc.now }
{
    Limits {
        min: doc.min,
        seq: doc.seq,
        conns: doc.conns.len() as u64,
    }
}

// ---- values

// Whether it isn't null, and has at most 100 levels.
fn is_value(value: &ValText) -> bool
    ensures { IsTrue result ↔ IsValue value.now }
{
    value.is_kept() && !is_null(value)
}

// Whether each value is such a value.
fn has_values(props: &Props) -> bool
    ensures { IsTrue result ↔ HasValues props.now }
{
    for (_, value) in props.as_slice() {
        if !is_value(value) {
            return false;
        }
    }
    true
}

// ---- segments and runs

// Whether each segment is valid.
fn are_valid_segments(alloc: Global, limits: Limits, segs: &[SegRec]) -> Result<bool, OutOfMemory>
    requires { limits.seq < 2 ^ 53 }
    ensures { IfOk result (λ valid. IsTrue valid ↔ AllByRecursion (IsSegment (bounds_in limits)) segs.now) }
{
    for seg in segs {
        if !is_valid_segment(alloc, limits, seg)? {
            return Ok(false);
        }
    }
    Ok(true)
}

// Whether the segment is valid.
fn is_valid_segment(alloc: Global, limits: Limits, seg: &SegRec) -> Result<bool, OutOfMemory>
    requires { limits.seq < 2 ^ 53 }
    ensures { IfOk result (λ valid. IsTrue valid ↔ IsSegment (bounds_in limits) seg.now) }
{
    if !is_segment_body(&seg.body) {
        return Ok(false);
    }
    if !is_author(limits, seg.ins, seg.by) {
        return Ok(false);
    }
    if !has_values(&seg.props) {
        return Ok(false);
    }
    are_stamps(alloc, limits, seg.ins, seg.dels.as_slice())
}

// Whether it is characters, at least one, or a marker whose reference type is a count.
fn is_segment_body(seg: &Seg) -> bool
    ensures { result ≡ is_segment_body seg.now }
{
    match seg {
        Seg::Chars { text } => !text.as_str().is_empty(),
        Seg::Marker { ref_type } => is_count(*ref_type),
    }
}

// Whether the insertion is an old one or above the minimum, and the removals are in range and in
// order.
fn are_stamps(alloc: Global, limits: Limits, ins: Mark, dels: &[Mark]) -> Result<bool, OutOfMemory>
    requires { limits.seq < 2 ^ 53 }
    ensures { IfOk result (λ good. good ≡ are_stamps (bounds_in limits) ins dels.now) }
{
    if !is_universal(ins) && !is_recent(limits, ins) {
        return Ok(false);
    }
    are_removals(alloc, limits, ins.seq, dels)
}

// Whether the author is that of the insertion, or of an old insertion unknown or an old one.
fn is_author(limits: Limits, ins: Mark, by: Mark) -> bool
    ensures { result ≡ is_author (bounds_in limits) ins by }
{
    if is_universal(ins) {
        is_universal(by) || is_old(limits, by)
    } else {
        by.seq == ins.seq && by.conn == ins.conn
    }
}

// Whether each run is valid, and they have at most 2^52 units.
fn are_valid_runs(alloc: Global, limits: Limits, runs: &[RunRec]) -> Result<bool, OutOfMemory>
    requires { limits.seq < 2 ^ 53 }
    ensures { IfOk result (λ valid. IsTrue valid ↔ AreRuns (bounds_in limits) runs.now) }
{
    if !has_few_units(runs) {
        return Ok(false);
    }
    for run in runs {
        if !is_valid_run(alloc, limits, run)? {
            return Ok(false);
        }
    }
    Ok(true)
}

// Whether the runs have at most 2^52 units.
fn has_few_units(runs: &[RunRec]) -> bool
    ensures { result ≡ nat_le (unit_count runs.now) (2 ^ 52) }
{
    let mut left = MOST_UNITS;
    for run in runs {
        if run.count > left {
            return false;
        }
        left -= run.count;
    }
    true
}

// Whether the run has a unit and good stamps.
fn is_valid_run(alloc: Global, limits: Limits, run: &RunRec) -> Result<bool, OutOfMemory>
    requires { limits.seq < 2 ^ 53 }
    ensures { IfOk result (λ valid. valid ≡ is_run (bounds_in limits) run.now) }
{
    if run.count == 0 {
        return Ok(false);
    }
    are_stamps(alloc, limits, run.ins, run.dels.as_slice())
}

// ---- intervals and cells

// Whether the intervals and the cells are valid.
fn is_valid_shown(doc: &SumDoc) -> bool
    requires elements { text_length doc.now.text < 2 ^ 53 }
    requires rows { unit_count doc.now.rows ≤ 2 ^ 52 }
    requires cols { unit_count doc.now.cols ≤ 2 ^ 52 }
    ensures { IsTrue result ↔ (AllByRecursion (IsInterval (unremoved_text doc.now.text)) doc.now.intervals
        × IsTrue (rises is_interval_before doc.now.intervals)
        × AllByRecursion (IsCell (unremoved_units doc.now.rows) (unremoved_units doc.now.cols)) doc.now.cells
        × IsTrue (rises is_cell_before doc.now.cells)) }
{
    let elements = shown_len(doc.text.as_slice());
    let rows = shown_units(doc.rows.as_slice());
    let cols = shown_units(doc.cols.as_slice());
    are_valid_intervals(elements, doc.intervals.as_slice())
        && intervals_rise(doc.intervals.as_slice())
        && are_valid_cells(rows, cols, doc.cells.as_slice())
        && cells_rise(doc.cells.as_slice())
}

// Whether each interval is valid, on so many elements.
fn are_valid_intervals(elements: u64, intervals: &[IntervalRec]) -> bool
    ensures { IsTrue result ↔ AllByRecursion (IsInterval elements) intervals.now }
{
    for interval in intervals {
        if !is_valid_interval(elements, interval) {
            return false;
        }
    }
    true
}

// Whether the interval is valid, on so many elements.
fn is_valid_interval(elements: u64, interval: &IntervalRec) -> bool
    ensures { IsTrue result ↔ IsInterval elements interval.now }
{
    are_shown_ends(elements, interval.ends) && has_values(&interval.props)
}

// Whether the intervals rise by label and id.
fn intervals_rise(intervals: &[IntervalRec]) -> bool
    ensures { result ≡ rises is_interval_before intervals.now }
{
    for i in 1..intervals.len() {
        if !is_interval_before(&intervals[i - 1], &intervals[i]) {
            return false;
        }
    }
    true
}

// Whether the first interval stands before the second.
fn is_interval_before(first: &IntervalRec, next: &IntervalRec) -> bool
    ensures { result ≡ is_interval_before first.now next.now }
{
    is_name_before(
        first.label.as_str(),
        first.id.as_str(),
        next.label.as_str(),
        next.id.as_str(),
    )
}

// Whether each cell is valid, of so many rows and columns.
fn are_valid_cells(rows: u64, cols: u64, cells: &[CellRec]) -> bool
    ensures { IsTrue result ↔ AllByRecursion (IsCell rows cols) cells.now }
{
    for cell in cells {
        if !is_valid_cell(rows, cols, cell) {
            return false;
        }
    }
    true
}

// Whether the cell is valid, of so many rows and columns.
fn is_valid_cell(rows: u64, cols: u64, cell: &CellRec) -> bool
    ensures { IsTrue result ↔ IsCell rows cols cell.now }
{
    cell.row < rows && cell.col < cols && is_value(&cell.value)
}

// Whether the cells rise by row and column.
fn cells_rise(cells: &[CellRec]) -> bool
    ensures { result ≡ rises is_cell_before cells.now }
{
    for i in 1..cells.len() {
        let first = &cells[i - 1];
        let next = &cells[i];
        if !is_place_before(first.row, first.col, next.row, next.col) {
            return false;
        }
    }
    true
}
