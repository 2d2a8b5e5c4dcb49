//! Writing summaries as JSON.

ghost use Rattle.std.specs.Prelude.{◌≡◌, [], Ok, IsTrue, IfOk, OnOk, codes, length};
ghost use Rattle.std.specs.List.{AllByRecursion};
ghost use Rattle.serde_json.specs.Data.{array, no_members, object, put};
ghost use Rattle.serde_json.specs.View.{view, items_view, members_view};
ghost use Rattle.ft_json.specs.Canonical.{value_of};
ghost use Rattle.ft_op.specs.Representable.{IsKeyed, IsText};
ghost use Rattle.ft_op.specs.WellFormed.{is_count};
ghost use Rattle.ft_op.specs.Written.{put_given, written_count, written_items, written_text};
ghost use Rattle.ft_sumdoc.specs.Chunks.{chunks};
ghost use Rattle.ft_sumdoc.specs.Representable.{IsRepresentableContent, IsRepresentableInterval, IsRepresentableSegmentRecord, IsRepresentableSummary};
ghost use Rattle.ft_sumdoc.specs.Segments.{text_length};
ghost use Rattle.ft_sumdoc.specs.Stamps.{is_universal, unless_universal};
ghost use Rattle.ft_sumdoc.specs.Summary.{summary};
ghost use Rattle.ft_sumdoc.specs.Valid.{HasValues, IsValidSummary, IsValue};
ghost use Rattle.ft_sumdoc.specs.WellFormed.{IsWellCut};
ghost use Rattle.ft_sumdoc.specs.Written.{author_beside, given_characters, given_mark, given_marks, given_props, given_ref_type, summary_text, written_cell_record, written_chunk, written_interval_record, written_props, written_segment_record, written_summary, written_unit_run};

use crate::chunks::{chunk_len, text_len};
use crate::item_writing::{WrittenItem, put_each, written_each};
use crate::summary::{CellRec, IntervalRec, Mark, Marks, RunRec, Seg, SegRec, SumDoc};
use ft_base::moved::push;
use ft_base::{OutOfMemory, Text};
use ft_json::{ValText, compact};
use ft_props::Props;
use serde_json::{Map, Value, json, put};
use std::alloc::Global;

// The version that is written.
const VERSION: u64 = 2;

// Puts a number under the key.
fn put_number(
    members: &mut Map<String, Value>,
    alloc: Global,
    key: &str,
    number: u64,
) -> Result<(), OutOfMemory>
    ensures { OnOk result (members_view members.new.entries
        ≡ put key.now (written_count number) (members_view members.old.entries)) }
{
    Ok(put(members, alloc, key, Value::from(number))?)
}

/// Whether it is the stamp that stands for an old or an unknown one.
pub(crate) fn is_universal(mark: Mark) -> bool
    ensures { result ≡ is_universal mark }
{
    mark.seq == 0 && mark.conn == 0
}

// The stamp, unless it is that one.
fn unless_universal(mark: Mark) -> Option<Mark>
    ensures { result ≡ unless_universal mark }
{
    if is_universal(mark) { None } else { Some(mark) }
}

// The author of an insertion as it is written: none where the insertion tells it.
fn author_beside(ins: Mark, by: Mark) -> Option<Mark>
    ensures { result ≡ author_beside ins by }
{
    if is_universal(ins) {
        unless_universal(by)
    } else {
        None
    }
}

impl WrittenItem for Mark {
    ghost use Rattle.std.specs.Prelude.{⊤};
    ghost use Rattle.ft_sumdoc.specs.Written.{written_mark};

    ghost written = { written_mark };

    ghost IsWritable = { λ _. ⊤ };

    ghost IsRepresentable = { λ _. ⊤ };

    fn to_value(&self, alloc: Global) -> Result<Value, OutOfMemory> {
        Ok(json!(in alloc; [self.seq, self.conn])?)
    }
}

// Puts the array of the stamp under the key, if there is one.
fn put_mark(
    members: &mut Map<String, Value>,
    alloc: Global,
    key: &str,
    mark: Option<Mark>,
) -> Result<(), OutOfMemory>
    ensures { OnOk result (members_view members.new.entries
        ≡ put_given key.now (given_mark mark) (members_view members.old.entries)) }
{
    match mark {
        Some(mark) => Ok(put(members, alloc, key, mark.to_value(alloc)?)?),
        None => Ok(()),
    }
}

// Puts the array of removals under its key, if there are any.
fn put_removals(
    members: &mut Map<String, Value>,
    alloc: Global,
    marks: &Marks,
) -> Result<(), OutOfMemory>
    ensures { OnOk result (members_view members.new.entries
        ≡ put_given (codes "r") (given_marks marks.now) (members_view members.old.entries)) }
{
    if marks.is_empty() {
        return Ok(());
    }
    put_each(members, alloc, "r", marks.as_slice())
}

// The value of a property or a cell.
fn written_value(value: &ValText) -> Result<Value, OutOfMemory>
    requires { IsValue value.now }
    ensures { IfOk result (λ v. view v ≡ value_of value.now) }
{
    value.to_value()
}

// The object of properties.
fn props_value(alloc: Global, props: &Props) -> Result<Value, OutOfMemory>
    requires { HasValues props.now }
    ensures value { IfOk result (λ v. view v ≡ written_props props.now) }
    ensures keyed { IfOk result (λ _. IsKeyed props.now) }
{
    let mut members = Map::new(alloc);
    for (key, value) in props.as_slice() {
        put(&mut members, alloc, key.as_str(), written_value(value)?)?;
    }
    Ok(Value::Object(members))
}

// Puts the object of properties under its key, if there are any.
fn put_props(
    members: &mut Map<String, Value>,
    alloc: Global,
    props: &Props,
) -> Result<(), OutOfMemory>
    requires { HasValues props.now }
    ensures value { OnOk result (members_view members.new.entries
        ≡ put_given (codes "p") (given_props props.now) (members_view members.old.entries)) }
    ensures keyed { OnOk result (IsKeyed props.now) }
{
    if props.is_empty() {
        return Ok(());
    }
    let value = props_value(alloc, props)?;
    Ok(put(members, alloc, "p", value)?)
}

// Puts the characters of a segment under their key, unless it is a marker.
fn put_characters(
    members: &mut Map<String, Value>,
    alloc: Global,
    seg: &Seg,
) -> Result<(), OutOfMemory>
    ensures value { OnOk result (members_view members.new.entries
        ≡ put_given (codes "t") (given_characters seg.now) (members_view members.old.entries)) }
    ensures representable { OnOk result (IsRepresentableContent seg.now) }
{
    match seg {
        Seg::Chars { text } => Ok(put(members, alloc, "t", text.to_value(alloc)?)?),
        Seg::Marker { .. } => Ok(()),
    }
}

// Puts the reference type of a marker under its key, unless the segment is characters.
fn put_ref_type(
    members: &mut Map<String, Value>,
    alloc: Global,
    seg: &Seg,
) -> Result<(), OutOfMemory>
    ensures { OnOk result (members_view members.new.entries
        ≡ put_given (codes "m") (given_ref_type seg.now) (members_view members.old.entries)) }
{
    match seg {
        Seg::Chars { .. } => Ok(()),
        Seg::Marker { ref_type } => put_number(members, alloc, "m", *ref_type),
    }
}

impl WrittenItem for SegRec {
    ghost use Rattle.ft_sumdoc.specs.Representable.{IsRepresentableSegmentRecord};
    ghost use Rattle.ft_sumdoc.specs.Valid.{HasValues};
    ghost use Rattle.ft_sumdoc.specs.Written.{written_segment_record};

    ghost written = { written_segment_record };

    ghost IsWritable = { λ seg. HasValues seg.props };

    ghost IsRepresentable = { IsRepresentableSegmentRecord };

    fn to_value(&self, alloc: Global) -> Result<Value, OutOfMemory> {
        let mut members = Map::new(alloc);
        put_segment(&mut members, alloc, self)?;
        Ok(Value::Object(members))
    }
}

// Puts the members of a segment into an object that has none.
fn put_segment(
    members: &mut Map<String, Value>,
    alloc: Global,
    seg: &SegRec,
) -> Result<(), OutOfMemory>
    requires props { HasValues seg.now.props }
    requires empty { members_view members.old.entries ≡ no_members }
    ensures value { OnOk result (object (members_view members.new.entries) ≡ written_segment_record seg.now) }
    ensures representable { OnOk result (IsRepresentableSegmentRecord seg.now) }
{
    put_mark(members, alloc, "a", author_beside(seg.ins, seg.by))?;
    put_mark(members, alloc, "i", unless_universal(seg.ins))?;
    put_ref_type(members, alloc, &seg.body)?;
    put_props(members, alloc, &seg.props)?;
    put_removals(members, alloc, &seg.dels)?;
    put_characters(members, alloc, &seg.body)
}

// The arrays of the chunks of a text.
fn written_chunks(alloc: Global, segs: &[SegRec]) -> Result<Vec<Value>, OutOfMemory>
    requires values { AllByRecursion (λ seg. HasValues seg.props) segs.now }
    requires elements { IsTrue (is_count (text_length segs.now)) }
    ensures value { IfOk result (λ vs. items_view vs.items ≡ written_items written_chunk (chunks segs.now)) }
    ensures representable { IfOk result (λ _. AllByRecursion IsRepresentableSegmentRecord segs.now) }
{
    let mut values = Vec::new(alloc);
    let mut rest = segs;
    while !rest.is_empty() {
        let (chunk, behind) = rest.split_at(chunk_len(rest));
        values.push(Value::Array(written_each(alloc, chunk)?))?;
        rest = behind;
    }
    Ok(values)
}

impl WrittenItem for RunRec {
    ghost use Rattle.std.specs.Prelude.{⊤};
    ghost use Rattle.ft_sumdoc.specs.Written.{written_unit_run};

    ghost written = { written_unit_run };

    ghost IsWritable = { λ _. ⊤ };

    ghost IsRepresentable = { λ _. ⊤ };

    fn to_value(&self, alloc: Global) -> Result<Value, OutOfMemory> {
        let mut members = Map::new(alloc);
        put_run(&mut members, alloc, self)?;
        Ok(Value::Object(members))
    }
}

// Puts the members of a run into an object that has none.
fn put_run(members: &mut Map<String, Value>, alloc: Global, run: &RunRec) -> Result<(), OutOfMemory>
    requires { members_view members.old.entries ≡ no_members }
    ensures { OnOk result (object (members_view members.new.entries) ≡ written_unit_run run.now) }
{
    put_mark(members, alloc, "i", unless_universal(run.ins))?;
    put_number(members, alloc, "n", run.count)?;
    put_removals(members, alloc, &run.dels)
}

impl WrittenItem for Text {
    ghost use Rattle.std.specs.Prelude.{⊤};
    ghost use Rattle.ft_op.specs.Representable.{IsText};
    ghost use Rattle.ft_op.specs.Written.{written_text};

    ghost written = { written_text };

    ghost IsWritable = { λ _. ⊤ };

    ghost IsRepresentable = { IsText };

    fn to_value(&self, alloc: Global) -> Result<Value, OutOfMemory> {
        Ok(Value::try_from_str(alloc, self.as_str())?)
    }
}

impl WrittenItem for IntervalRec {
    ghost use Rattle.ft_sumdoc.specs.Representable.{IsRepresentableInterval};
    ghost use Rattle.ft_sumdoc.specs.Valid.{HasValues};
    ghost use Rattle.ft_sumdoc.specs.Written.{written_interval_record};

    ghost written = { written_interval_record };

    ghost IsWritable = { λ i. HasValues i.props };

    ghost IsRepresentable = { IsRepresentableInterval };

    fn to_value(&self, alloc: Global) -> Result<Value, OutOfMemory> {
        let mut items = Vec::new(alloc);
        push_interval(&mut items, alloc, self)?;
        Ok(Value::Array(items))
    }
}

// Adds the values of an interval to none.
fn push_interval(items: &mut Vec<Value>, alloc: Global, i: &IntervalRec) -> Result<(), OutOfMemory>
    requires props { HasValues i.now.props }
    requires empty { items.old.items ≡ [] }
    ensures value { OnOk result (array (items_view items.new.items) ≡ written_interval_record i.now) }
    ensures representable { OnOk result (IsRepresentableInterval i.now) }
{
    push(items, i.label.to_value(alloc)?)?;
    push(items, i.id.to_value(alloc)?)?;
    push(items, Value::from(i.ends.start))?;
    push(items, Value::from(i.ends.end))?;
    push(items, props_value(alloc, &i.props)?)
}

impl WrittenItem for CellRec {
    ghost use Rattle.std.specs.Prelude.{⊤};
    ghost use Rattle.ft_sumdoc.specs.Valid.{IsValue};
    ghost use Rattle.ft_sumdoc.specs.Written.{written_cell_record};

    ghost written = { written_cell_record };

    ghost IsWritable = { λ c. IsValue c.value };

    ghost IsRepresentable = { λ _. ⊤ };

    fn to_value(&self, alloc: Global) -> Result<Value, OutOfMemory> {
        let mut items = Vec::new(alloc);
        push_cell(&mut items, alloc, self)?;
        Ok(Value::Array(items))
    }
}

// Adds the values of a cell to none.
fn push_cell(items: &mut Vec<Value>, alloc: Global, cell: &CellRec) -> Result<(), OutOfMemory>
    requires value { IsValue cell.now.value }
    requires empty { items.old.items ≡ [] }
    ensures { OnOk result (array (items_view items.new.items) ≡ written_cell_record cell.now) }
{
    push(items, Value::from(cell.row))?;
    push(items, Value::from(cell.col))?;
    push(items, written_value(&cell.value)?)
}

// Puts the fields `cells`, `cols`, `conns` and `count`, which come first.
fn put_first(
    members: &mut Map<String, Value>,
    alloc: Global,
    doc: &SumDoc,
) -> Result<(), OutOfMemory>
    requires cells { AllByRecursion (λ c. IsValue c.value) doc.now.cells }
    requires elements { IsTrue (is_count (text_length doc.now.text)) }
    ensures value { OnOk result (members_view members.new.entries
        ≡ put (codes "count") (written_count (text_length doc.now.text))
        (put (codes "conns") (array (written_items written_text doc.now.conns))
        (put (codes "cols") (array (written_items written_unit_run doc.now.cols))
        (put (codes "cells") (array (written_items written_cell_record doc.now.cells)) (members_view members.old.entries))))) }
    ensures names { OnOk result (AllByRecursion IsText doc.now.conns) }
{
    put_each(members, alloc, "cells", doc.cells.as_slice())?;
    put_each(members, alloc, "cols", doc.cols.as_slice())?;
    put_each(members, alloc, "conns", doc.conns.as_slice())?;
    let elements = text_len(doc.text.as_slice()) as u64;
    put_number(members, alloc, "count", elements)
}

// Puts the fields `intervals`, `min`, `other` and `rows`, which come then.
fn put_next(
    members: &mut Map<String, Value>,
    alloc: Global,
    doc: &SumDoc,
) -> Result<(), OutOfMemory>
    requires { AllByRecursion (λ i. HasValues i.props) doc.now.intervals }
    ensures value { OnOk result (members_view members.new.entries
        ≡ put (codes "rows") (array (written_items written_unit_run doc.now.rows))
        (put (codes "other") (written_count doc.now.other)
        (put (codes "min") (written_count doc.now.min)
        (put (codes "intervals") (array (written_items written_interval_record doc.now.intervals)) (members_view members.old.entries))))) }
    ensures intervals { OnOk result (AllByRecursion IsRepresentableInterval doc.now.intervals) }
{
    put_each(members, alloc, "intervals", doc.intervals.as_slice())?;
    put_number(members, alloc, "min", doc.min)?;
    put_number(members, alloc, "other", doc.other)?;
    put_each(members, alloc, "rows", doc.rows.as_slice())
}

// Puts the fields `seq`, `skipped`, `text` and `version`, which come last.
fn put_last(
    members: &mut Map<String, Value>,
    alloc: Global,
    doc: &SumDoc,
) -> Result<(), OutOfMemory>
    requires values { AllByRecursion (λ seg. HasValues seg.props) doc.now.text }
    requires elements { IsTrue (is_count (text_length doc.now.text)) }
    ensures value { OnOk result (members_view members.new.entries
        ≡ put (codes "version") (written_count 2)
        (put (codes "text") (array (written_items written_chunk (chunks doc.now.text)))
        (put (codes "skipped") (written_count doc.now.skipped)
        (put (codes "seq") (written_count doc.now.seq) (members_view members.old.entries))))) }
    ensures text { OnOk result (AllByRecursion IsRepresentableSegmentRecord doc.now.text) }
{
    put_number(members, alloc, "seq", doc.seq)?;
    put_number(members, alloc, "skipped", doc.skipped)?;
    let text = Value::Array(written_chunks(alloc, doc.text.as_slice())?);
    put(members, alloc, "text", text)?;
    put_number(members, alloc, "version", VERSION)
}

// The object of a summary, of version 2.
fn summary_value(alloc: Global, doc: &SumDoc) -> Result<Value, OutOfMemory>
    requires { IsValidSummary doc.now }
    ensures value { IfOk result (λ v. view v ≡ written_summary doc.now) }
    ensures representable { IfOk result (λ _. IsRepresentableSummary doc.now) }
{
    let mut members = Map::new(alloc);
    put_first(&mut members, alloc, doc)?;
    put_next(&mut members, alloc, doc)?;
    put_last(&mut members, alloc, doc)?;
    Ok(Value::Object(members))
}

/// The one text of a summary, of version 2: compact, with the keys of each object in rising order of
/// their bytes. A summary that is cut as what is written reads back from it. It takes time and memory
/// in the length of the text.
pub fn write_summary(alloc: Global, doc: &SumDoc) -> Result<ValText, OutOfMemory>
    requires valid { IsValidSummary doc.now }
    requires conns { IsTrue (is_count (length doc.now.conns)) }
    ensures text { IfOk result (λ text. text ≡ summary_text doc.now) }
    ensures reads_back { IsWellCut doc.now → IfOk result (λ text. summary text ≡ Ok doc.now) }
{
    let value = summary_value(alloc, doc)?;
    compact(alloc, &value)
}
