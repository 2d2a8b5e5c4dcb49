//! Reading summaries.

ghost use Rattle.std.specs.Prelude.{◌≡◌, ◌≢◌, ◌<◌, ◌^◌, ◌≤◌, ◌++◌, Ok, Err, true, if◌then◌else◌, IfOk, IfErr, length, map};
ghost use Rattle.std.specs.List.{AllByRecursion};
ghost use Rattle.serde_json.specs.View.{view};
ghost use Rattle.ft_json.specs.Readers.{Gives, Reads};
ghost use Rattle.ft_json.specs.Reading.{needed_field};
ghost use Rattle.ft_op.specs.Reading.{is_object, read_each};
ghost use Rattle.ft_sumdoc.specs.Counts.{bounds_of};
ghost use Rattle.ft_sumdoc.specs.Faults.{field_of_summary};
ghost use Rattle.ft_sumdoc.specs.Forms.{has_no_null};
ghost use Rattle.ft_sumdoc.specs.Items.{bounds_in, head_of, lists_of, run_of, segment_of, text_of};
ghost use Rattle.ft_sumdoc.specs.Narrow.{narrow_text};
ghost use Rattle.ft_sumdoc.specs.NarrowLists.{narrow_lists, runs_beside, segments_stamps};
ghost use Rattle.ft_sumdoc.specs.Runs.{unit_count, unremoved_units};
ghost use Rattle.ft_sumdoc.specs.Segments.{text_length, unremoved_text};
ghost use Rattle.ft_sumdoc.specs.Shown.{shown_beside};
ghost use Rattle.ft_sumdoc.specs.Stamps.{places_behind};
ghost use Rattle.ft_sumdoc.specs.Summary.{element_count, lists, run_stamps, summary, summary_of_object, within_chunk};
ghost use Rattle.ft_sumdoc.specs.Valid.{HasOnlyValues, HasValues, IsValidSummary, IsValue};
ghost use Rattle.ft_sumdoc.specs.Values.{kept_segment, kept_each};

use crate::chunks::body_len;
use crate::head_reading::read_head;
use crate::item_reading::{keep_each, read_array_field};
use crate::items::{HeadItem, Limits, ListItem, RunItem, SegItem, TextItem};
use crate::limits::CHUNK_LENGTH;
use crate::run_reading::keep_runs;
use crate::segment_reading::text_item;
use crate::shown_reading::{read_cells, read_intervals};
use crate::stamp_tests::{run_places, segment_places};
use crate::summary::{
    CellRecs, IntervalRecs, RunRec, RunRecs, SegRec, SegRecs, SumCause, SumDoc, SumFault,
};
use ft_base::OutOfMemory;
use ft_json::{Field, FieldFault, count_field, field, read_line};
use ft_op::is_object;
use serde_json::Value;
use std::alloc::Global;

// The items of the field `text` in a summary of this version.
fn read_text_items(alloc: Global, version: u64, value: &Value) -> Result<TextItem<'_>, SumFault>
    ensures ok { IfOk result (λ text. field_of_summary (needed_field (narrow_text version) (view value.now) Field.Text) ≡ Ok (text_of text)) }
    ensures err { IfErr result (λ fault. fault ≢ SumFault.OutOfMemory
        → field_of_summary (needed_field (narrow_text version) (view value.now) Field.Text) ≡ Err fault) }
{
    let f = Field::Text;
    let found = field(value, f).ok_or(FieldFault::Missing(f))?;
    match text_item(alloc, version, found)? {
        Some(text) => Ok(text),
        None => Err(SumFault::Malformed(SumCause::WrongKind(f))),
    }
}

// The segments, as they are kept.
fn read_segments(alloc: Global, items: &[SegItem]) -> Result<SegRecs, SumFault>
    requires { AllByRecursion (λ seg. has_no_null seg.props ≡ true) (map segment_of items.now) }
    ensures { Reads SumFault.OutOfMemory (kept_each kept_segment (map segment_of items.now)) (AllByRecursion (λ seg. HasValues seg.props)) result }
{
    Ok(keep_each(alloc, items)?)
}

// The place behind all stamps.
//
// Returns `BadStamp` with the first place with bad stamps, and `OutOfMemory` where there is no room
// to tell, and where there are more places than a `u64` holds, which no memory has room for.
fn all_places(
    alloc: Global,
    limits: Limits,
    segs: &[SegItem],
    rows: &[RunItem],
    cols: &[RunItem],
) -> Result<u64, SumFault>
    requires { limits.seq < 2 ^ 53 }
    ensures { Gives SumFault.OutOfMemory (places_behind (bounds_in limits) 0
        (segments_stamps (map segment_of segs.now) ++ run_stamps (map run_of rows.now) ++ run_stamps (map run_of cols.now))) result }
{
    let text = segment_places(alloc, limits, 0, segs)?;
    let most = u64::MAX - rows.len() as u64;
    if text > most {
        return Err(SumFault::OutOfMemory);
    }
    let units = run_places(alloc, limits, text, rows)?;
    if units > u64::MAX - cols.len() as u64 {
        return Err(SumFault::OutOfMemory);
    }
    run_places(alloc, limits, units, cols)
}

// The rows and the columns that an object gives, unless stamps of these segments, of the rows or of
// the columns are bad.
#[tactic(auto, unfolding(crate::specs::NarrowLists::runs_beside))]
fn read_runs(
    alloc: Global,
    limits: Limits,
    segs: &[SegItem],
    value: &Value,
) -> Result<(RunRecs, RunRecs), SumFault>
    requires { limits.seq < 2 ^ 53 }
    ensures reads { Gives SumFault.OutOfMemory (runs_beside (bounds_in limits) (map segment_of segs.now) (view value.now)) result }
    ensures rows { IfOk result (λ found. unit_count found.0 ≤ 2 ^ 52) }
    ensures cols { IfOk result (λ found. unit_count found.1 ≤ 2 ^ 52) }
{
    let rows: Vec<RunItem> = read_array_field(alloc, (), value, Field::Rows)?;
    let cols: Vec<RunItem> = read_array_field(alloc, (), value, Field::Cols)?;
    let _places = all_places(alloc, limits, segs, &rows, &cols)?;
    Ok((keep_runs(alloc, &rows)?, keep_runs(alloc, &cols)?))
}

// The lists of elements that an object gives behind this head, as they are read.
#[tactic(auto, unfolding(crate::specs::NarrowLists::narrow_lists))]
fn read_narrow_lists(alloc: Global, head: &HeadItem, value: &Value) -> Result<ListItem, SumFault>
    requires { head.now.seq < 2 ^ 53 }
    ensures ok { IfOk result (λ found. narrow_lists (head_of head.now) (view value.now) ≡ Ok (lists_of found)) }
    ensures err { IfErr result (λ fault. fault ≢ SumFault.OutOfMemory → narrow_lists (head_of head.now) (view value.now) ≡ Err fault) }
    ensures values { IfOk result (λ found. AllByRecursion (λ seg. HasValues seg.props) found.text) }
    ensures rows { IfOk result (λ found. unit_count found.rows ≤ 2 ^ 52) }
    ensures cols { IfOk result (λ found. unit_count found.cols ≤ 2 ^ 52) }
{
    let items = read_text_items(alloc, head.version, value)?;
    let text = read_segments(alloc, &items.segs)?;
    let (rows, cols) = read_runs(alloc, limits_of(head), &items.segs, value)?;
    Ok(ListItem {
        text,
        rows,
        cols,
        lengths: items.lengths,
    })
}

// The lists of elements that an object gives behind this head.
fn read_lists(alloc: Global, head: &HeadItem, value: &Value) -> Result<ListItem, SumFault>
    requires seq { head.now.seq < 2 ^ 53 }
    requires few { length head.now.conns < 2 ^ 32 }
    ensures ok { IfOk result (λ found. lists (head_of head.now) (view value.now) ≡ Ok (lists_of found)) }
    ensures err { IfErr result (λ fault. fault ≢ SumFault.OutOfMemory → lists (head_of head.now) (view value.now) ≡ Err fault) }
    ensures values { IfOk result (λ found. AllByRecursion (λ seg. HasValues seg.props) found.text) }
    ensures rows { IfOk result (λ found. unit_count found.rows ≤ 2 ^ 52) }
    ensures cols { IfOk result (λ found. unit_count found.cols ≤ 2 ^ 52) }
{
    read_narrow_lists(alloc, head, value)
}

// What stamps behind this head are tested with.
fn limits_of(head: &HeadItem) -> Limits
    ensures value { bounds_in result ≡ bounds_of (head_of head.now) }
    ensures seq { result.seq ≡ head.now.seq }
{
    Limits {
        min: head.min,
        seq: head.seq,
        conns: head.conns.len() as u64,
    }
}

// How many elements the segments have.
//
// Returns `OutOfMemory` where they are more than a `u64` holds, which no memory has room for.
fn found_len(segs: &[SegRec]) -> Result<u64, OutOfMemory>
    ensures { IfOk result (λ n. n ≡ text_length segs.now) }
{
    let mut elements: u64 = 0;
    for seg in segs {
        elements = elements
            .checked_add(body_len(&seg.body) as u64)
            .ok_or(OutOfMemory)?;
    }
    Ok(elements)
}

// Tests that no chunk has too many elements.
fn test_chunks(lengths: &[u64]) -> Result<(), SumFault>
    ensures ok { IfOk result (λ _. read_each within_chunk lengths.now ≡ Ok lengths.now) }
    ensures err { IfErr result (λ fault. read_each within_chunk lengths.now ≡ Err fault) }
{
    for length in lengths {
        if *length > CHUNK_LENGTH as u64 {
            return Err(SumFault::BadCount {
                said: CHUNK_LENGTH as u64,
                found: *length,
            });
        }
    }
    Ok(())
}

// Tests the count of elements that an object gives beside these lists, and their chunks.
#[tactic(auto, unfolding(crate::specs::Summary::element_count))]
fn test_count(lists: &ListItem, value: &Value) -> Result<u64, SumFault>
    ensures reads { Gives SumFault.OutOfMemory (element_count (lists_of lists.now) (view value.now)) result }
    ensures few { IfOk result (λ _. text_length lists.now.text < 2 ^ 53) }
{
    let said = count_field(value, Field::Count)?;
    let found = found_len(lists.text.as_slice())?;
    if said != found {
        return Err(SumFault::BadCount { said, found });
    }
    test_chunks(&lists.lengths)?;
    Ok(said)
}

/// How many elements of the segments aren't removed.
pub(crate) fn shown_len(segs: &[SegRec]) -> u64
    requires { text_length segs.now < 2 ^ 53 }
    ensures { result ≡ unremoved_text segs.now }
{
    let mut elements = 0;
    for seg in segs {
        if seg.dels.is_empty() {
            elements += body_len(&seg.body) as u64;
        }
    }
    elements
}

/// How many units of the runs aren't removed.
pub(crate) fn shown_units(runs: &[RunRec]) -> u64
    requires { unit_count runs.now ≤ 2 ^ 52 }
    ensures { result ≡ unremoved_units runs.now }
{
    let mut units = 0;
    for run in runs {
        if run.dels.is_empty() {
            units += run.count;
        }
    }
    units
}

// The intervals and the cells that an object gives beside these lists, whose elements are counted
// before.
#[tactic(auto, unfolding(crate::specs::Shown::shown_beside))]
fn read_shown(
    alloc: Global,
    lists: &ListItem,
    value: &Value,
) -> Result<(IntervalRecs, CellRecs), SumFault>
    requires rows { unit_count lists.now.rows ≤ 2 ^ 52 }
    requires cols { unit_count lists.now.cols ≤ 2 ^ 52 }
    ensures { Reads SumFault.OutOfMemory (shown_beside (lists_of lists.now) (view value.now))
        (λ shown. AllByRecursion (λ i. HasValues i.props) shown.0 × AllByRecursion (λ c. IsValue c.value) shown.1) result }
{
    let _elements = test_count(lists, value)?;
    let elements = shown_len(lists.text.as_slice());
    let intervals = read_intervals(alloc, elements, value)?;
    let rows = shown_units(lists.rows.as_slice());
    let cols = shown_units(lists.cols.as_slice());
    let cells = read_cells(alloc, rows, cols, value)?;
    Ok((intervals, cells))
}

// The summary that the object is.
#[tactic(auto, unfolding(crate::specs::Summary::summary_of_object))]
fn read_object(alloc: Global, value: &Value) -> Result<SumDoc, SumFault>
    ensures reads { Reads SumFault.OutOfMemory (summary_of_object (view value.now)) HasOnlyValues result }
    ensures few { IfOk result (λ sum. length sum.conns < 2 ^ 32) }
{
    let head = read_head(alloc, value)?;
    let lists = read_lists(alloc, &head, value)?;
    let (intervals, cells) = read_shown(alloc, &lists, value)?;
    Ok(SumDoc {
        seq: head.seq,
        min: head.min,
        skipped: head.skipped,
        other: head.other,
        conns: head.conns,
        text: lists.text,
        rows: lists.rows,
        cols: lists.cols,
        intervals,
        cells,
    })
}

/// The summary that the bytes are, of version 1 or 2.
///
/// What is read is valid. Returns the first fault in the order in which its fields are tested, and
/// `OutOfMemory` where there is no room for it; there is none for 2^32 names. It takes time and
/// memory in the length of the text.
#[tactic(auto, unfolding(crate::specs::Summary::summary))]
pub fn read_summary(alloc: Global, bytes: &[u8]) -> Result<SumDoc, SumFault>
    ensures reads { Reads SumFault.OutOfMemory (summary bytes.now) IsValidSummary result }
    ensures few { IfOk result (λ sum. length sum.conns < 2 ^ 32) }
{
    let value = read_line(alloc, bytes)?;
    read_value(alloc, &value)
}

// The summary that the value is.
fn read_value(alloc: Global, value: &Value) -> Result<SumDoc, SumFault>
    ensures reads { Reads SumFault.OutOfMemory
        (if is_object (view value.now) then summary_of_object (view value.now) else Err (SumFault.Malformed (SumCause.WrongKind Field.Summary)))
        HasOnlyValues result }
    ensures few { IfOk result (λ sum. length sum.conns < 2 ^ 32) }
{
    if !is_object(value) {
        return Err(SumFault::Malformed(SumCause::WrongKind(Field::Summary)));
    }
    read_object(alloc, value)
}
