//! Writing operations as JSON.

ghost use Rattle.std.specs.Prelude.{◌≡◌, Ok, Some, IfOk, OnOk, codes, map, option_map};
ghost use Rattle.std.specs.List.{AllByRecursion};
ghost use Rattle.serde_json.specs.Data.{no_members, object, put, string};
ghost use Rattle.serde_json.specs.View.{view, items_view, members_view};
ghost use Rattle.serde_json.specs.Written.{compact_text};
ghost use Rattle.ft_json.specs.Bounds.{kept_levels};
ghost use Rattle.ft_json.specs.Canonical.{IsTextWithin};
ghost use Rattle.ft_json.specs.Reading.{read_line};
ghost use Rattle.ft_op.specs.Laws.{IsReadAs};
ghost use Rattle.ft_op.specs.Representable.{IsKeyed, IsRepresentable, IsRepresentableBase, IsRepresentableSegment, IsRepresentableText, IsText};
ghost use Rattle.ft_op.specs.WellFormed.{IsPropertySet, IsSetValue, IsWellFormed, IsWellFormedBase, IsWellFormedCell, IsWellFormedGrid, IsWellFormedText};
ghost use Rattle.ft_op.specs.Written.{given_adjust, given_end, given_set, given_start, put_counts, put_given, written, written_adjustment, written_base, written_cell, written_characters, written_grid_op, written_group, written_items, written_interval, written_number, written_pairs, written_segment, written_set, written_target, written_text_op, written_value};

use crate::limits::{ANNOTATION, GROUP, INSERTION, REMOVAL, SPLICE_IN, SPLICE_OUT};
use crate::operations::{BaseOp, CellOp, ChannelOp, Ends, GridOp, Seg, Target, TextOp};
use ft_base::{OutOfMemory, Text};
use ft_json::{ValText, compact};
use ft_props::{AdjSet, Adjust, Changes, PropSet};
use serde_json::{Map, Value, json, put};
use std::alloc::Global;

// The value that a key is set to: null for none.
fn written_value(value: &Option<ValText>) -> Result<Value, OutOfMemory>
    requires { IsSetValue value.now }
    ensures { IfOk result (λ v. view v ≡ written_value value.now) }
{
    match value {
        Some(value) => value.to_value(),
        None => Ok(Value::Null),
    }
}

// The object of a property set.
fn written_set(alloc: Global, set: &PropSet) -> Result<Value, OutOfMemory>
    requires { IsPropertySet set.now }
    ensures value { IfOk result (λ v. view v ≡ written_set set.now) }
    ensures keyed { IfOk result (λ _. IsKeyed set.now) }
{
    let mut members = Map::new(alloc);
    for (key, value) in set.as_slice() {
        put(&mut members, alloc, key.as_str(), written_value(value)?)?;
    }
    Ok(Value::Object(members))
}

// The object of a property set, none for an empty one.
fn given_set(alloc: Global, set: &PropSet) -> Result<Option<Value>, OutOfMemory>
    requires { IsPropertySet set.now }
    ensures value { IfOk result (λ v. option_map view v ≡ given_set set.now) }
    ensures keyed { IfOk result (λ _. IsKeyed set.now) }
{
    if set.is_empty() {
        return Ok(None);
    }
    Ok(Some(written_set(alloc, set)?))
}

// Puts the object of a property set, unless it is empty.
fn put_given_set(
    members: &mut Map<String, Value>,
    alloc: Global,
    set: &PropSet,
) -> Result<(), OutOfMemory>
    requires { IsPropertySet set.now }
    ensures value { OnOk result (members_view members.new.entries
        ≡ put_given (codes "props") (given_set set.now) (members_view members.old.entries)) }
    ensures keyed { OnOk result (IsKeyed set.now) }
{
    let set = given_set(alloc, set)?;
    put_given(members, alloc, "props", set)
}

// Puts the value under the key, if it is there.
fn put_given(
    members: &mut Map<String, Value>,
    alloc: Global,
    key: &str,
    value: Option<Value>,
) -> Result<(), OutOfMemory>
    ensures { OnOk result (members_view members.new.entries
        ≡ put_given key.now (option_map view value) (members_view members.old.entries)) }
{
    match value {
        Some(value) => Ok(put(members, alloc, key, value)?),
        None => Ok(()),
    }
}

// Puts the number under the key, if it is there.
fn put_number(
    members: &mut Map<String, Value>,
    alloc: Global,
    key: &str,
    number: Option<i64>,
) -> Result<(), OutOfMemory>
    ensures { OnOk result (members_view members.new.entries
        ≡ put_given key.now (option_map written_number number) (members_view members.old.entries)) }
{
    match number {
        Some(number) => Ok(put(members, alloc, key, Value::from(number))?),
        None => Ok(()),
    }
}

// Puts the string under the key.
fn put_str(
    members: &mut Map<String, Value>,
    alloc: Global,
    key: &str,
    text: &str,
) -> Result<(), OutOfMemory>
    ensures { OnOk result (members_view members.new.entries
        ≡ put key.now (string text.now) (members_view members.old.entries)) }
{
    Ok(put(members, alloc, key, Value::try_from_str(alloc, text)?)?)
}

// The members of an object that are these counts.
fn counts(alloc: Global, given: &[(&str, u64)]) -> Result<Map<String, Value>, OutOfMemory>
    ensures { IfOk result (λ members. members_view members.entries
        ≡ put_counts (map (λ c. (c.0.now, c.1)) given.now) no_members) }
{
    let mut members = Map::new(alloc);
    for (key, n) in given {
        put(&mut members, alloc, key, Value::from(*n))?;
    }
    Ok(members)
}

// The object of an adjustment.
fn written_adjustment(alloc: Global, adjust: &Adjust) -> Result<Value, OutOfMemory>
    ensures { IfOk result (λ v. view v ≡ written_adjustment adjust.now) }
{
    let mut members = Map::new(alloc);
    put(&mut members, alloc, "delta", Value::from(adjust.delta))?;
    put_number(&mut members, alloc, "max", adjust.max)?;
    put_number(&mut members, alloc, "min", adjust.min)?;
    Ok(Value::Object(members))
}

// The object of adjustments.
fn written_adjustments(alloc: Global, adjust: &AdjSet) -> Result<Value, OutOfMemory>
    ensures value { IfOk result (λ v. view v ≡ object (written_pairs written_adjustment adjust.now)) }
    ensures keyed { IfOk result (λ _. IsKeyed adjust.now) }
{
    let mut members = Map::new(alloc);
    for (key, by) in adjust.as_slice() {
        let by = written_adjustment(alloc, by)?;
        put(&mut members, alloc, key.as_str(), by)?;
    }
    Ok(Value::Object(members))
}

// The object of adjustments, none where there are none.
fn given_adjust(alloc: Global, adjust: &AdjSet) -> Result<Option<Value>, OutOfMemory>
    ensures value { IfOk result (λ v. option_map view v ≡ given_adjust adjust.now) }
    ensures keyed { IfOk result (λ _. IsKeyed adjust.now) }
{
    if adjust.is_empty() {
        return Ok(None);
    }
    Ok(Some(written_adjustments(alloc, adjust)?))
}

// Characters with their properties.
fn written_characters(alloc: Global, text: &Text, props: &PropSet) -> Result<Value, OutOfMemory>
    requires { IsPropertySet props.now }
    ensures value { IfOk result (λ v. view v ≡ written_segment (Seg.Chars text.now) props.now) }
    ensures text { IfOk result (λ _. IsText text.now) }
    ensures keyed { IfOk result (λ _. IsKeyed props.now) }
{
    match given_set(alloc, props)? {
        Some(props) => characters_with(alloc, text, props),
        None => Ok(Value::try_from_str(alloc, text.as_str())?),
    }
}

// The object of characters with these properties.
fn characters_with(alloc: Global, text: &Text, props: Value) -> Result<Value, OutOfMemory>
    ensures value { IfOk result (λ v. view v ≡ written_characters text.now (Some (view props))) }
    ensures text { IfOk result (λ _. IsText text.now) }
{
    let mut members = Map::new(alloc);
    put(&mut members, alloc, "props", props)?;
    put_str(&mut members, alloc, "text", text.as_str())?;
    Ok(Value::Object(members))
}

// A marker with its properties.
fn written_marker(alloc: Global, ref_type: u64, props: &PropSet) -> Result<Value, OutOfMemory>
    requires { IsPropertySet props.now }
    ensures value { IfOk result (λ v. view v ≡ written_segment (Seg.Marker ref_type) props.now) }
    ensures keyed { IfOk result (λ _. IsKeyed props.now) }
{
    let mut members = Map::new(alloc);
    let marker = counts(alloc, &[("refType", ref_type)])?;
    put(&mut members, alloc, "marker", Value::Object(marker))?;
    put_given_set(&mut members, alloc, props)?;
    Ok(Value::Object(members))
}

// A segment with its properties.
fn written_segment(alloc: Global, seg: &Seg, props: &PropSet) -> Result<Value, OutOfMemory>
    requires { IsPropertySet props.now }
    ensures value { IfOk result (λ v. view v ≡ written_segment seg.now props.now) }
    ensures segment { IfOk result (λ _. IsRepresentableSegment seg.now) }
    ensures keyed { IfOk result (λ _. IsKeyed props.now) }
{
    match seg {
        Seg::Chars { text } => written_characters(alloc, text, props),
        Seg::Marker { ref_type } => written_marker(alloc, *ref_type, props),
    }
}

// An annotation.
fn written_annotation(
    alloc: Global,
    pos1: u64,
    pos2: u64,
    changes: &Changes,
) -> Result<Value, OutOfMemory>
    requires { IsPropertySet changes.now.props }
    ensures value { IfOk result (λ v. view v ≡ written_base (BaseOp.Annotate pos1 pos2 changes.now)) }
    ensures props { IfOk result (λ _. IsKeyed changes.now.props) }
    ensures adjust { IfOk result (λ _. IsKeyed changes.now.adjust) }
{
    let mut members = counts(
        alloc,
        &[("pos1", pos1), ("pos2", pos2), ("type", ANNOTATION)],
    )?;
    put(
        &mut members,
        alloc,
        "props",
        written_set(alloc, &changes.props)?,
    )?;
    let adjust = given_adjust(alloc, &changes.adjust)?;
    put_given(&mut members, alloc, "adjust", adjust)?;
    Ok(Value::Object(members))
}

// An insertion.
fn written_insertion(
    alloc: Global,
    pos: u64,
    seg: &Seg,
    props: &PropSet,
) -> Result<Value, OutOfMemory>
    requires { IsPropertySet props.now }
    ensures value { IfOk result (λ v. view v ≡ written_base (BaseOp.Insert pos seg.now props.now)) }
    ensures segment { IfOk result (λ _. IsRepresentableSegment seg.now) }
    ensures keyed { IfOk result (λ _. IsKeyed props.now) }
{
    let mut members = counts(alloc, &[("pos1", pos), ("type", INSERTION)])?;
    put(
        &mut members,
        alloc,
        "seg",
        written_segment(alloc, seg, props)?,
    )?;
    Ok(Value::Object(members))
}

// An operation that may stand in a group of the text.
fn written_base(alloc: Global, op: &BaseOp) -> Result<Value, OutOfMemory>
    requires { IsWellFormedBase op.now }
    ensures value { IfOk result (λ v. view v ≡ written_base op.now) }
    ensures representable { IfOk result (λ _. IsRepresentableBase op.now) }
{
    match op {
        BaseOp::Insert { pos, seg, props } => written_insertion(alloc, *pos, seg, props),
        BaseOp::Remove { pos1, pos2 } => {
            let members = counts(
                alloc,
                &[("pos1", *pos1), ("pos2", *pos2), ("type", REMOVAL)],
            )?;
            Ok(Value::Object(members))
        }
        BaseOp::Annotate {
            pos1,
            pos2,
            changes,
        } => written_annotation(alloc, *pos1, *pos2, changes),
    }
}

// The operations of a group of the text.
fn written_base_ops(alloc: Global, ops: &[BaseOp]) -> Result<Vec<Value>, OutOfMemory>
    requires { AllByRecursion IsWellFormedBase ops.now }
    ensures value { IfOk result (λ vs. items_view vs.items ≡ written_items written_base ops.now) }
    ensures representable { IfOk result (λ _. AllByRecursion IsRepresentableBase ops.now) }
{
    let mut values = Vec::new(alloc);
    for op in ops {
        values.push(written_base(alloc, op)?)?;
    }
    Ok(values)
}

// A group of these operations.
fn written_group(alloc: Global, ops: Vec<Value>) -> Result<Value, OutOfMemory>
    ensures { IfOk result (λ v. view v ≡ written_group (items_view ops.items)) }
{
    Ok(json!(in alloc; {"ops": Value::Array(ops), "type": GROUP})?)
}

// The number of the first end, if ends are given.
fn given_start(ends: Option<Ends>) -> Option<i64>
    ensures { option_map written_number result ≡ given_start ends }
{
    ends.map(|ends| ends.start)
}

// The number of the last end, if ends are given.
fn given_end(ends: Option<Ends>) -> Option<i64>
    ensures { option_map written_number result ≡ given_end ends }
{
    ends.map(|ends| ends.end)
}

// The addition or the change of an interval.
fn written_interval(
    alloc: Global,
    word: &str,
    label: &Text,
    id: &Text,
    ends: Option<Ends>,
    props: &PropSet,
) -> Result<Value, OutOfMemory>
    requires { IsPropertySet props.now }
    ensures value { IfOk result (λ v. view v
        ≡ written_interval word.now label.now id.now ends props.now) }
    ensures label { IfOk result (λ _. IsText label.now) }
    ensures id { IfOk result (λ _. IsText id.now) }
    ensures keyed { IfOk result (λ _. IsKeyed props.now) }
{
    let mut members = Map::new(alloc);
    put_interval(&mut members, alloc, word, label, id, ends, props)?;
    Ok(Value::Object(members))
}

// Puts the members of the addition or the change of an interval into an object that has none.
fn put_interval(
    members: &mut Map<String, Value>,
    alloc: Global,
    word: &str,
    label: &Text,
    id: &Text,
    ends: Option<Ends>,
    props: &PropSet,
) -> Result<(), OutOfMemory>
    requires formed { IsPropertySet props.now }
    requires empty { members_view members.old.entries ≡ no_members }
    ensures { OnOk result ((object (members_view members.new.entries) ≡ written_interval word.now label.now id.now ends props.now)
        × IsText label.now × IsText id.now × IsKeyed props.now) }
{
    let id = id.as_str();
    let label = label.as_str();
    put_number(members, alloc, "end", given_end(ends))?;
    put_str(members, alloc, "id", id)?;
    put_str(members, alloc, "interval", word)?;
    put_str(members, alloc, "label", label)?;
    put_given_set(members, alloc, props)?;
    put_number(members, alloc, "start", given_start(ends))
}

// The deletion of an interval.
fn written_deletion(alloc: Global, label: &Text, id: &Text) -> Result<Value, OutOfMemory>
    ensures value { IfOk result (λ v. view v
        ≡ written_text_op (TextOp.IntervalDelete label.now id.now)) }
    ensures label { IfOk result (λ _. IsText label.now) }
    ensures id { IfOk result (λ _. IsText id.now) }
{
    written_interval(alloc, "delete", label, id, None, &PropSet::new(alloc))
}

// An operation of the text.
fn written_text_op(alloc: Global, op: &TextOp) -> Result<Value, OutOfMemory>
    requires { IsWellFormedText op.now }
    ensures value { IfOk result (λ v. view v ≡ written_text_op op.now) }
    ensures representable { IfOk result (λ _. IsRepresentableText op.now) }
{
    match op {
        TextOp::One(op) => written_base(alloc, op),
        TextOp::Group(ops) => written_group(alloc, written_base_ops(alloc, ops.as_slice())?),
        TextOp::IntervalAdd {
            label,
            id,
            ends,
            props,
        } => written_interval(alloc, "add", label, id, Some(*ends), props),
        TextOp::IntervalChange {
            label,
            id,
            ends,
            props,
        } => written_interval(alloc, "change", label, id, *ends, props),
        TextOp::IntervalDelete { label, id } => written_deletion(alloc, label, id),
    }
}

// The name of the list that a splice is for.
fn target_name(target: Target) -> &'static str
    ensures { string result.now ≡ written_target target }
{
    match target {
        Target::Rows => "rows",
        Target::Cols => "cols",
    }
}

// A splice of this list, with these counts.
fn written_splice(
    alloc: Global,
    target: Target,
    given: &[(&str, u64)],
) -> Result<Value, OutOfMemory>
    ensures { IfOk result (λ v. view v ≡ object (put (codes "target") (written_target target)
        (put_counts (map (λ c. (c.0.now, c.1)) given.now) no_members))) }
{
    let mut members = counts(alloc, given)?;
    put_str(&mut members, alloc, "target", target_name(target))?;
    Ok(Value::Object(members))
}

// A write to a cell.
fn written_cell_write(
    alloc: Global,
    row: u64,
    col: u64,
    value: &ValText,
) -> Result<Value, OutOfMemory>
    requires { IsTextWithin kept_levels value.now }
    ensures { IfOk result (λ v. view v ≡ written_cell (CellOp.Set row col value.now)) }
{
    let mut members = counts(alloc, &[("col", col), ("row", row)])?;
    put_str(&mut members, alloc, "type", "set")?;
    put(&mut members, alloc, "value", value.to_value()?)?;
    Ok(Value::Object(members))
}

// An operation that may stand in a group of the grid.
fn written_cell(alloc: Global, op: &CellOp) -> Result<Value, OutOfMemory>
    requires { IsWellFormedCell op.now }
    ensures { IfOk result (λ v. view v ≡ written_cell op.now) }
{
    match op {
        CellOp::SpliceIn { target, pos, count } => written_splice(
            alloc,
            *target,
            &[("count", *count), ("pos1", *pos), ("type", SPLICE_IN)],
        ),
        CellOp::SpliceOut { target, pos1, pos2 } => written_splice(
            alloc,
            *target,
            &[("pos1", *pos1), ("pos2", *pos2), ("type", SPLICE_OUT)],
        ),
        CellOp::Set { row, col, value } => written_cell_write(alloc, *row, *col, value),
    }
}

// The operations of a group of the grid.
fn written_cell_ops(alloc: Global, ops: &[CellOp]) -> Result<Vec<Value>, OutOfMemory>
    requires { AllByRecursion IsWellFormedCell ops.now }
    ensures { IfOk result (λ vs. items_view vs.items ≡ written_items written_cell ops.now) }
{
    let mut values = Vec::new(alloc);
    for op in ops {
        values.push(written_cell(alloc, op)?)?;
    }
    Ok(values)
}

// An operation of the grid.
fn written_grid_op(alloc: Global, op: &GridOp) -> Result<Value, OutOfMemory>
    requires { IsWellFormedGrid op.now }
    ensures { IfOk result (λ v. view v ≡ written_grid_op op.now) }
{
    match op {
        GridOp::One(op) => written_cell(alloc, op),
        GridOp::Group(ops) => written_group(alloc, written_cell_ops(alloc, ops.as_slice())?),
    }
}

/// The JSON value that an operation is written as: just the fields of its form.
pub fn op_value(alloc: Global, op: &ChannelOp) -> Result<Value, OutOfMemory>
    requires { IsWellFormed op.now }
    ensures value { IfOk result (λ v. view v ≡ written op.now) }
    ensures representable { IfOk result (λ _. IsRepresentable op.now) }
{
    match op {
        ChannelOp::Text(op) => written_text_op(alloc, op),
        ChannelOp::Grid(op) => written_grid_op(alloc, op),
    }
}

/// The one text of an operation: compact, with the keys of each object in rising order of their
/// bytes. It reads back as the same operation.
pub fn write_op(alloc: Global, op: &ChannelOp) -> Result<ValText, OutOfMemory>
    requires { IsWellFormed op.now }
    ensures text { IfOk result (λ text. text ≡ compact_text (written op.now)) }
    ensures reads_back { IfOk result (λ text. read_line text ≡ Ok (written op.now)) }
    ensures same { IfOk result (λ _. IsReadAs op.now (written op.now)) }
{
    let value = op_value(alloc, op)?;
    compact(alloc, &value)
}
