//! The texts of changes.

ghost use Rattle.std.specs.Prelude.{◌≡◌, ◌++◌, IfOk, OnOk, codes, string_bytes};
ghost use Rattle.ft_io.specs.Lines.{with_lf};
ghost use Rattle.ft_seqr.specs.ViewLines.{object_text};
ghost use Rattle.ft_change_lines.specs.ChangeTexts.{cell_members, change_head, change_members, change_text, change_word, changes_text, ends_members, member, name_members, range_members, segment_text, target_word, units_members};

use crate::members::{push_count, push_key, push_object, push_position, push_quoted};
use ft_base::moved::after;
use ft_base::{OutOfMemory, Text};
use ft_changes::ViewChange;
use ft_op::{Seg, Target};
use ft_props::Props;
use ft_sumdoc::IntervalRec;
use std::alloc::Global;
use std::fmt::Write;

/// The texts of changes, each a JSON object on a line that ends with LF: `put` with its segment as in an insertion,
/// `take`, `style`, `putUnits`, `takeUnits`, `cell`, `interval` and `gone`.
///
/// Returns `OutOfMemory` where there is no room for them.
pub fn changes_text(alloc: Global, changes: &[ViewChange]) -> Result<String, OutOfMemory>
    ensures { IfOk result (λ text. string_bytes text ≡ changes_text changes.now) }
{
    let mut text = String::new(alloc);
    let pushed = push_changes(alloc, &mut text, changes);
    after(pushed, text)
}

// Adds the lines of changes.
fn push_changes(alloc: Global, text: &mut String, changes: &[ViewChange]) -> Result<(), OutOfMemory>
    ensures { OnOk result (string_bytes text.new ≡ string_bytes text.old ++ changes_text changes.now) }
{
    for change in changes {
        push_change(alloc, text, change)?;
    }
    Ok(())
}

// Adds the line of a change.
fn push_change(alloc: Global, text: &mut String, change: &ViewChange) -> Result<(), OutOfMemory>
    ensures { OnOk result (string_bytes text.new ≡ string_bytes text.old ++ with_lf (change_text change.now)) }
{
    push_word(text, change_word(change))?;
    push_members(alloc, text, change)?;
    Ok(text.push_str("}\n")?)
}

// Adds what a line begins with: the word of its change.
fn push_word(text: &mut String, word: &str) -> Result<(), OutOfMemory>
    ensures { OnOk result (string_bytes text.new ≡ string_bytes text.old ++ change_head word.now) }
{
    text.push_str("{\"change\":\"")?;
    text.push_str(word)?;
    Ok(text.push('"')?)
}

// The word of a change.
fn change_word(change: &ViewChange) -> &'static str
    ensures { result.now ≡ change_word change.now }
{
    match change {
        ViewChange::Put { .. } => "put",
        ViewChange::Take { .. } => "take",
        ViewChange::Style { .. } => "style",
        ViewChange::PutUnits { .. } => "putUnits",
        ViewChange::TakeUnits { .. } => "takeUnits",
        ViewChange::SetCell { .. } => "cell",
        ViewChange::ClearCell { .. } => "cell",
        ViewChange::SetInterval { .. } => "interval",
        ViewChange::DropInterval { .. } => "gone",
    }
}

// Adds the parts of a change.
fn push_members(alloc: Global, text: &mut String, change: &ViewChange) -> Result<(), OutOfMemory>
    ensures { OnOk result (string_bytes text.new ≡ string_bytes text.old ++ change_members change.now) }
{
    match change {
        ViewChange::Put { pos, seg, props } => push_put(alloc, text, *pos, seg, props),
        ViewChange::Take { pos, count } => push_range(text, *pos, *count),
        ViewChange::Style { pos, count, props } => push_style(alloc, text, *pos, *count, props),
        ViewChange::PutUnits { target, pos, count } => push_units(text, *target, *pos, *count),
        ViewChange::TakeUnits { target, pos, count } => push_units(text, *target, *pos, *count),
        ViewChange::SetCell { row, col, value } => push_cell(text, *row, *col, value.as_str()),
        ViewChange::ClearCell { row, col } => push_cell(text, *row, *col, "null"),
        ViewChange::SetInterval { interval } => push_interval(alloc, text, interval),
        ViewChange::DropInterval { label, id } => push_names(alloc, text, label, id),
    }
}

// Adds where a segment goes in, and the segment with its properties.
fn push_put(
    alloc: Global,
    text: &mut String,
    pos: u64,
    seg: &Seg,
    props: &Props,
) -> Result<(), OutOfMemory>
    ensures { OnOk result (string_bytes text.new ≡ string_bytes text.old ++ change_members (ViewChange.Put pos seg.now props.now)) }
{
    push_count(text, "pos", pos)?;
    push_key(text, "seg")?;
    push_segment(alloc, text, seg)?;
    push_props(alloc, text, props)
}

// Adds a segment.
fn push_segment(alloc: Global, text: &mut String, seg: &Seg) -> Result<(), OutOfMemory>
    ensures { OnOk result (string_bytes text.new ≡ string_bytes text.old ++ segment_text seg.now) }
{
    match seg {
        Seg::Chars { text: characters } => push_quoted(alloc, text, characters),
        Seg::Marker { ref_type } => push_marker(text, *ref_type),
    }
}

// Adds a marker.
fn push_marker(text: &mut String, ref_type: u64) -> Result<(), OutOfMemory>
    ensures { OnOk result (string_bytes text.new ≡ string_bytes text.old ++ segment_text (Seg.Marker ref_type)) }
{
    text.push_str("{\"marker\":{\"refType\":")?;
    write!(text, "{ref_type}")?;
    Ok(text.push_str("}}")?)
}

// Adds properties under their key.
fn push_props(alloc: Global, text: &mut String, props: &Props) -> Result<(), OutOfMemory>
    ensures { OnOk result (string_bytes text.new ≡ string_bytes text.old ++ member (codes "props") (object_text props.now)) }
{
    push_key(text, "props")?;
    push_object(alloc, text, props)
}

// Adds from where on how many elements there are.
fn push_range(text: &mut String, pos: u64, count: u64) -> Result<(), OutOfMemory>
    ensures { OnOk result (string_bytes text.new ≡ string_bytes text.old ++ range_members pos count) }
{
    push_count(text, "pos", pos)?;
    push_count(text, "count", count)
}

// Adds from where on how many elements have these properties.
fn push_style(
    alloc: Global,
    text: &mut String,
    pos: u64,
    count: u64,
    props: &Props,
) -> Result<(), OutOfMemory>
    ensures { OnOk result (string_bytes text.new ≡ string_bytes text.old ++ change_members (ViewChange.Style pos count props.now)) }
{
    push_range(text, pos, count)?;
    push_props(alloc, text, props)
}

// Adds from where on how many rows or columns there are.
fn push_units(text: &mut String, target: Target, pos: u64, count: u64) -> Result<(), OutOfMemory>
    ensures { OnOk result (string_bytes text.new ≡ string_bytes text.old ++ units_members target pos count) }
{
    push_key(text, "target")?;
    text.push('"')?;
    text.push_str(target_word(target))?;
    text.push('"')?;
    push_range(text, pos, count)
}

// The word of rows or columns.
fn target_word(target: Target) -> &'static str
    ensures { result.now ≡ target_word target }
{
    match target {
        Target::Rows => "rows",
        Target::Cols => "cols",
    }
}

// Adds the place of a cell, and its value.
fn push_cell(text: &mut String, row: u64, col: u64, value: &str) -> Result<(), OutOfMemory>
    ensures { OnOk result (string_bytes text.new ≡ string_bytes text.old ++ cell_members row col value.now) }
{
    push_count(text, "row", row)?;
    push_count(text, "col", col)?;
    push_key(text, "value")?;
    Ok(text.push_str(value)?)
}

// Adds the label and the id of an interval, its ends and its properties.
fn push_interval(
    alloc: Global,
    text: &mut String,
    interval: &IntervalRec,
) -> Result<(), OutOfMemory>
    ensures { OnOk result (string_bytes text.new ≡ string_bytes text.old ++ change_members (ViewChange.SetInterval interval.now)) }
{
    push_names(alloc, text, &interval.label, &interval.id)?;
    push_ends(alloc, text, interval)
}

// Adds the label and the id of an interval.
fn push_names(alloc: Global, text: &mut String, label: &Text, id: &Text) -> Result<(), OutOfMemory>
    ensures { OnOk result (string_bytes text.new ≡ string_bytes text.old ++ name_members label.now id.now) }
{
    push_key(text, "label")?;
    push_quoted(alloc, text, label)?;
    push_key(text, "id")?;
    push_quoted(alloc, text, id)
}

// Adds the ends of an interval, and its properties.
fn push_ends(alloc: Global, text: &mut String, interval: &IntervalRec) -> Result<(), OutOfMemory>
    ensures { OnOk result (string_bytes text.new ≡ string_bytes text.old ++ ends_members interval.now) }
{
    push_position(text, "start", interval.ends.start)?;
    push_position(text, "end", interval.ends.end)?;
    push_props(alloc, text, &interval.props)
}
