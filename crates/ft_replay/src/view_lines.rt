//! The lines of a view.

ghost use Rattle.std.specs.Prelude.{◌≡◌, ◌∷◌, ◌++◌, IfOk, OnOk, map, string_bytes};
ghost use Rattle.ft_io.specs.Lines.{with_lf};
ghost use Rattle.ft_replay.specs.LineForm.{bytes_of};
ghost use Rattle.ft_msg.specs.Answers.{view_content};
ghost use Rattle.ft_seqr.specs.ViewLines.{cell_line, content_lines, interval_line, interval_name, json_string, later_members, marker_line, member_text, numbers_line, object_text, run_line, table_lines, text_line};

use ft_base::moved::after;
use ft_base::{OutOfMemory, Text};
use ft_json::{ValText, quote};
use ft_msg::{Numbers, Run, Spot, View};
use ft_props::Props;
use ft_sumdoc::{CellRec, IntervalRec};
use std::alloc::Global;
use std::fmt::Write;

/// The lines of a view: its numbers, and what it shows. Each has its LF.
pub fn view_text(alloc: Global, view: &View) -> Result<String, OutOfMemory>
    ensures { IfOk result (λ text. string_bytes text ≡ bytes_of (numbers_line view.now.numbers ∷ content_lines (view_content view.now))) }
{
    let mut text = String::new(alloc);
    let pushed = push_view(alloc, &mut text, view);
    after(pushed, text)
}

// Adds these lines.
fn push_view(alloc: Global, text: &mut String, view: &View) -> Result<(), OutOfMemory>
    ensures { OnOk result (string_bytes text.new ≡ string_bytes text.old
        ++ bytes_of (numbers_line view.now.numbers ∷ content_lines (view_content view.now))) }
{
    push_numbers(text, view.numbers)?;
    push_content(alloc, text, view)
}

/// Adds the lines of what a view shows: its text, its markers, the runs of properties, the intervals,
/// the counts of rows and columns where there are any, and the cells. Each has its LF.
#[tactic(auto, unfolding(ft_seqr::specs::ViewLines::content_lines))]
pub fn push_content(alloc: Global, text: &mut String, view: &View) -> Result<(), OutOfMemory>
    ensures { OnOk result (string_bytes text.new ≡ string_bytes text.old ++ bytes_of (content_lines (view_content view.now))) }
{
    push_text_line(alloc, text, &view.text)?;
    push_markers(text, view.markers.as_slice())?;
    push_runs(alloc, text, view.runs.as_slice())?;
    push_intervals(alloc, text, view.intervals.as_slice())?;
    push_table(text, view.rows, view.cols)?;
    push_cells(text, view.cells.as_slice())
}

// Adds the line of the numbers.
fn push_numbers(text: &mut String, numbers: Numbers) -> Result<(), OutOfMemory>
    ensures { OnOk result (string_bytes text.new ≡ string_bytes text.old ++ with_lf (numbers_line numbers)) }
{
    let seq = numbers.seq;
    let min = numbers.min;
    Ok(write!(text, "seq {seq} min {min}\n")?)
}

// Adds the line of the text.
fn push_text_line(alloc: Global, text: &mut String, shown: &Text) -> Result<(), OutOfMemory>
    ensures { OnOk result (string_bytes text.new ≡ string_bytes text.old ++ with_lf (text_line shown.now)) }
{
    text.push_str("text ")?;
    push_quoted(alloc, text, shown)?;
    Ok(text.push('\n')?)
}

/// Adds the JSON string of the characters.
pub fn push_quoted(alloc: Global, text: &mut String, characters: &Text) -> Result<(), OutOfMemory>
    ensures { OnOk result (string_bytes text.new ≡ string_bytes text.old ++ json_string characters.now) }
{
    let quoted = quote(alloc, characters)?;
    text.push_str(quoted.as_str())?;
    Ok(())
}

// Adds the lines of the markers.
fn push_markers(text: &mut String, markers: &[Spot]) -> Result<(), OutOfMemory>
    ensures { OnOk result (string_bytes text.new ≡ string_bytes text.old ++ bytes_of (map marker_line markers.now)) }
{
    for marker in markers {
        push_marker(text, marker)?;
    }
    Ok(())
}

// Adds the line of a marker.
fn push_marker(text: &mut String, marker: &Spot) -> Result<(), OutOfMemory>
    ensures { OnOk result (string_bytes text.new ≡ string_bytes text.old ++ with_lf (marker_line marker.now)) }
{
    let pos = marker.pos;
    let ref_type = marker.ref_type;
    Ok(write!(text, "marker {pos} {ref_type}\n")?)
}

// Adds the lines of the runs.
fn push_runs(alloc: Global, text: &mut String, runs: &[Run]) -> Result<(), OutOfMemory>
    ensures { OnOk result (string_bytes text.new ≡ string_bytes text.old ++ bytes_of (map run_line runs.now)) }
{
    for run in runs {
        push_run(alloc, text, run)?;
    }
    Ok(())
}

// Adds the line of a run.
fn push_run(alloc: Global, text: &mut String, run: &Run) -> Result<(), OutOfMemory>
    ensures { OnOk result (string_bytes text.new ≡ string_bytes text.old ++ with_lf (run_line run.now)) }
{
    let start = run.start;
    let end = run.end;
    write!(text, "props {start} {end} ")?;
    push_object(alloc, text, &run.props)?;
    Ok(text.push('\n')?)
}

// Adds the lines of the intervals.
fn push_intervals(
    alloc: Global,
    text: &mut String,
    intervals: &[IntervalRec],
) -> Result<(), OutOfMemory>
    ensures { OnOk result (string_bytes text.new ≡ string_bytes text.old ++ bytes_of (map interval_line intervals.now)) }
{
    for interval in intervals {
        push_interval(alloc, text, interval)?;
    }
    Ok(())
}

// Adds the line of an interval.
fn push_interval(
    alloc: Global,
    text: &mut String,
    interval: &IntervalRec,
) -> Result<(), OutOfMemory>
    ensures { OnOk result (string_bytes text.new ≡ string_bytes text.old ++ with_lf (interval_line interval.now)) }
{
    let start = interval.ends.start;
    let end = interval.ends.end;
    push_interval_name(alloc, text, interval)?;
    write!(text, " {start} {end} ")?;
    push_object(alloc, text, &interval.props)?;
    Ok(text.push('\n')?)
}

// Adds the line of an interval up to its ends.
fn push_interval_name(
    alloc: Global,
    text: &mut String,
    interval: &IntervalRec,
) -> Result<(), OutOfMemory>
    ensures { OnOk result (string_bytes text.new ≡ string_bytes text.old ++ interval_name interval.now) }
{
    text.push_str("interval ")?;
    push_quoted(alloc, text, &interval.label)?;
    text.push(' ')?;
    push_quoted(alloc, text, &interval.id)
}

// Adds the line of the counts of rows and columns, if there are any.
fn push_table(text: &mut String, rows: u64, cols: u64) -> Result<(), OutOfMemory>
    ensures { OnOk result (string_bytes text.new ≡ string_bytes text.old ++ bytes_of (table_lines rows cols)) }
{
    if rows != 0 || cols != 0 {
        write!(text, "rows {rows} cols {cols}\n")?;
    }
    Ok(())
}

// Adds the lines of the cells.
fn push_cells(text: &mut String, cells: &[CellRec]) -> Result<(), OutOfMemory>
    ensures { OnOk result (string_bytes text.new ≡ string_bytes text.old ++ bytes_of (map cell_line cells.now)) }
{
    for cell in cells {
        push_cell(text, cell)?;
    }
    Ok(())
}

// Adds the line of a cell.
fn push_cell(text: &mut String, cell: &CellRec) -> Result<(), OutOfMemory>
    ensures { OnOk result (string_bytes text.new ≡ string_bytes text.old ++ with_lf (cell_line cell.now)) }
{
    let row = cell.row;
    let col = cell.col;
    let value = cell.value.as_str();
    Ok(write!(text, "cell {row} {col} {value}\n")?)
}

// Adds the properties as a JSON object.
#[tactic(auto, unfolding(ft_seqr::specs::ViewLines::object_text))]
fn push_object(alloc: Global, text: &mut String, props: &Props) -> Result<(), OutOfMemory>
    ensures { OnOk result (string_bytes text.new ≡ string_bytes text.old ++ object_text props.now) }
{
    let Some((first, later)) = props.as_slice().split_first() else {
        return Ok(text.push_str("{}")?);
    };
    text.push('{')?;
    push_member(alloc, text, first)?;
    push_later_members(alloc, text, later)?;
    Ok(text.push('}')?)
}

// Adds the members, each behind a comma.
fn push_later_members(
    alloc: Global,
    text: &mut String,
    members: &[(Text, ValText)],
) -> Result<(), OutOfMemory>
    ensures { OnOk result (string_bytes text.new ≡ string_bytes text.old ++ later_members members.now) }
{
    for member in members {
        text.push(',')?;
        push_member(alloc, text, member)?;
    }
    Ok(())
}

// Adds a key with its value.
fn push_member(
    alloc: Global,
    text: &mut String,
    member: &(Text, ValText),
) -> Result<(), OutOfMemory>
    ensures { OnOk result (string_bytes text.new ≡ string_bytes text.old ++ member_text member.now) }
{
    push_quoted(alloc, text, &member.0)?;
    text.push(':')?;
    text.push_str(member.1.as_str())?;
    Ok(())
}
