//! What leads from nothing to what a view shows.

ghost use Rattle.std.specs.Prelude.{◌≡◌, ◌++◌, ◌∷◌, [], IfOk, OnOk, chars, drop, map, take};
ghost use Rattle.std.specs.Str.{IsCharBoundary};
ghost use Rattle.ft_msg.specs.Answers.{view_content};
ghost use Rattle.ft_changes.specs.declared.changes.ViewChange.TheVariants.{Put, SetInterval};
ghost use Rattle.ft_op.specs.declared.operations.Seg.TheVariants.{Marker};
ghost use Rattle.ft_change_lines.specs.FromNothing.{put_elements, put_text, put_units, set_of, style_of, told_from_nothing};

use ft_base::moved::after;
use ft_base::{Datum, OutOfMemory, Text};
use ft_changes::{ViewChange, ViewChanges};
use ft_msg::{Run, Spot, View};
use ft_op::{Seg, Target};
use ft_props::Props;
use ft_sumdoc::{CellRec, IntervalRec};
use std::alloc::Global;

/// What leads from nothing to what a view shows, as changes: its characters, those between two markers at once, and
/// its markers; the runs of properties; its rows and columns, cells and intervals.
///
/// Returns `OutOfMemory` where there is no room for them.
pub fn told_from_nothing(alloc: Global, view: &View) -> Result<ViewChanges, OutOfMemory>
    ensures { IfOk result (λ changes. changes ≡ told_from_nothing (view_content view.now)) }
{
    let mut changes = ViewChanges::new(alloc);
    let pushed = push_all(alloc, &mut changes, view);
    after(pushed, changes)
}

// Adds all that leads to what a view shows.
fn push_all(alloc: Global, changes: &mut ViewChanges, view: &View) -> Result<(), OutOfMemory>
    ensures { OnOk result (changes.new ≡ changes.old ++ told_from_nothing (view_content view.now)) }
{
    push_elements(alloc, changes, view.text.as_str(), view.markers.as_slice())?;
    push_runs(changes, view.runs.as_slice())?;
    push_units(changes, Target::Rows, view.rows)?;
    push_units(changes, Target::Cols, view.cols)?;
    push_cells(changes, view.cells.as_slice())?;
    push_intervals(changes, view.intervals.as_slice())
}

// Adds the characters and the markers.
fn push_elements(
    alloc: Global,
    changes: &mut ViewChanges,
    text: &str,
    markers: &[Spot],
) -> Result<(), OutOfMemory>
    ensures { OnOk result (changes.new ≡ changes.old ++ put_elements 0 (chars text.now) markers.now) }
{
    let mut rest = text;
    let mut place = 0;
    for marker in markers {
        let end = byte_place(rest, marker.pos.saturating_sub(place));
        push_text(alloc, changes, place, &rest[..end])?;
        push_marker(alloc, changes, marker)?;
        rest = &rest[end..];
        place = marker.pos.checked_add(1).ok_or(OutOfMemory)?;
    }
    push_text(alloc, changes, place, rest)
}

// Adds characters from a place on, if there are any.
fn push_text(
    alloc: Global,
    changes: &mut ViewChanges,
    place: u64,
    characters: &str,
) -> Result<(), OutOfMemory>
    ensures { OnOk result (changes.new ≡ changes.old ++ put_text place (chars characters.now)) }
{
    if characters.is_empty() {
        return Ok(());
    }
    let text = Text::new(alloc, characters)?;
    changes.push(ViewChange::Put {
        pos: place,
        seg: Seg::Chars { text },
        props: Props::new(alloc),
    })
}

// Adds a marker.
fn push_marker(alloc: Global, changes: &mut ViewChanges, marker: &Spot) -> Result<(), OutOfMemory>
    ensures { OnOk result (changes.new ≡ changes.old ++ Put marker.now.pos (Marker marker.now.ref_type) [] ∷ []) }
{
    changes.push(ViewChange::Put {
        pos: marker.pos,
        seg: Seg::Marker {
            ref_type: marker.ref_type,
        },
        props: Props::new(alloc),
    })
}

// How many bytes the first `count` characters of a text take, or all of them, where it has no more.
fn byte_place(text: &str, count: u64) -> usize
    ensures boundary { IsCharBoundary text.now result }
    ensures front { chars (take result text.now) ≡ take count (chars text.now) }
    ensures rear { chars (drop result text.now) ≡ drop count (chars text.now) }
{
    let mut rest = text.chars();
    for _ in 0..count {
        rest.next();
    }
    text.len() - rest.as_str().len()
}

// Adds the runs of properties.
fn push_runs(changes: &mut ViewChanges, runs: &[Run]) -> Result<(), OutOfMemory>
    ensures { OnOk result (changes.new ≡ changes.old ++ map style_of runs.now) }
{
    for run in runs {
        push_run(changes, run)?;
    }
    Ok(())
}

// Adds a run of properties.
fn push_run(changes: &mut ViewChanges, run: &Run) -> Result<(), OutOfMemory>
    ensures { OnOk result (changes.new ≡ changes.old ++ style_of run.now ∷ []) }
{
    let props = run.props.copy()?;
    changes.push(ViewChange::Style {
        pos: run.start,
        count: run.end.saturating_sub(run.start),
        props,
    })
}

// Adds so many rows or columns, if there are any.
fn push_units(changes: &mut ViewChanges, target: Target, count: u64) -> Result<(), OutOfMemory>
    ensures { OnOk result (changes.new ≡ changes.old ++ put_units target count) }
{
    if count == 0 {
        return Ok(());
    }
    changes.push(ViewChange::PutUnits {
        target,
        pos: 0,
        count,
    })
}

// Adds the cells.
fn push_cells(changes: &mut ViewChanges, cells: &[CellRec]) -> Result<(), OutOfMemory>
    ensures { OnOk result (changes.new ≡ changes.old ++ map set_of cells.now) }
{
    for cell in cells {
        push_cell(changes, cell)?;
    }
    Ok(())
}

// Adds a cell.
fn push_cell(changes: &mut ViewChanges, cell: &CellRec) -> Result<(), OutOfMemory>
    ensures { OnOk result (changes.new ≡ changes.old ++ set_of cell.now ∷ []) }
{
    let value = cell.value.copy()?;
    changes.push(ViewChange::SetCell {
        row: cell.row,
        col: cell.col,
        value,
    })
}

// Adds the intervals.
fn push_intervals(changes: &mut ViewChanges, intervals: &[IntervalRec]) -> Result<(), OutOfMemory>
    ensures { OnOk result (changes.new ≡ changes.old ++ map SetInterval intervals.now) }
{
    for interval in intervals {
        let interval = interval.copy()?;
        changes.push(ViewChange::SetInterval { interval })?;
    }
    Ok(())
}
