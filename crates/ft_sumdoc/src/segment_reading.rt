//! Reading the segments of a text and the properties of elements and intervals.

ghost use Rattle.std.specs.Prelude.{◌≡◌, IsTrue, IfOk, chars, map, option_map};
ghost use Rattle.serde_json.specs.View.{view};
ghost use Rattle.ft_json.specs.Readers.{Reads};
ghost use Rattle.ft_json.specs.Objects.{entry_pairs};
ghost use Rattle.ft_sumdoc.specs.Forms.{has_no_null, props_form};
ghost use Rattle.ft_sumdoc.specs.Items.{body_of, given_pairs, segment_of, text_of};
ghost use Rattle.ft_sumdoc.specs.Narrow.{narrow_chunks, narrow_text};
ghost use Rattle.ft_sumdoc.specs.Segments.{body_length, given_body, segment_props, some_characters};
ghost use Rattle.ft_sumdoc.specs.Summary.{given_length};
ghost use Rattle.ft_sumdoc.specs.Valid.{HasValues};
ghost use Rattle.ft_sumdoc.specs.Values.{kept_props};

use crate::chunks::char_count;
use crate::item_reading::{KeptItem, ListedItem, read_array};
use crate::items::{BodyItem, SegItem, TextItem};
use crate::stamp_reading::{author, stamp_item};
use crate::stamp_tests::{given_author, given_insertion};
use crate::summary::{Seg, SegRec};
use ft_base::{Datum, OutOfMemory, Text};
use ft_json::{Field, JsonFault, canonical, count, field, items, pairs};
use ft_props::Props;
use serde_json::{Map, Value};
use std::alloc::Global;

// What a segment holds that has these fields for characters and for a marker: None where not just
// one of them is there, or it has not the form.
fn body_item<'a>(text: Option<&'a Value>, marker: Option<&'a Value>) -> Option<BodyItem<'a>>
    ensures { option_map body_of result
        ≡ given_body (option_map (λ d. view d.now) text.entry) (option_map (λ d. view d.now) marker.entry) }
{
    match (text, marker) {
        (Some(text), None) => letters(text.as_str()?),
        (None, Some(marker)) => Some(BodyItem::Sign(count(marker)?)),
        (Some(_), Some(_)) | (None, None) => None,
    }
}

// The characters, at least one.
fn letters(text: &str) -> Option<BodyItem<'_>>
    ensures { option_map body_of result ≡ some_characters (chars text.now) }
{
    if text.is_empty() {
        None
    } else {
        Some(BodyItem::Letters(text))
    }
}

// Whether no value is null.
fn has_no_null(entries: &Map<String, Value>) -> bool
    ensures { result ≡ has_no_null (entry_pairs entries.now.entries) }
{
    for (_, value) in entries.iter() {
        if value.is_null() {
            return false;
        }
    }
    true
}

/// The entries of the object that the value is: None where it is no object, or a value is null.
pub(crate) fn props_item(value: &Value) -> Option<&Map<String, Value>>
    ensures { option_map (λ m. entry_pairs m.now.entries) result ≡ props_form (view value.now) }
{
    let entries = pairs(value)?;
    if has_no_null(entries) {
        Some(entries)
    } else {
        None
    }
}

// The entries of a field for properties that may be absent: None where it is there and has not the
// form.
fn optional_props(value: Option<&Value>) -> Option<Option<&Map<String, Value>>>
    ensures { option_map given_pairs result ≡ segment_props (option_map (λ d. view d.now) value.entry) }
{
    match value {
        Some(value) => Some(Some(props_item(value)?)),
        None => Some(None),
    }
}

impl<'a> ListedItem<'a> for SegItem<'a> {
    ghost use Rattle.ft_sumdoc.specs.Items.{segment_of};
    ghost use Rattle.ft_sumdoc.specs.Narrow.{narrow_segment};
    ghost use Rattle.ft_sumdoc.specs.Segments.{GivenSegment, has_some};

    // The version of the summary.
    type Limits = u64;

    ghost Meant = { GivenSegment };

    ghost meaning = { segment_of };

    ghost form = { narrow_segment };

    ghost together = { has_some };

    fn read_item(
        alloc: Global,
        limits: u64,
        value: &'a Value,
    ) -> Result<Option<SegItem<'a>>, OutOfMemory> {
        let text = field(value, Field::SegmentText);
        let Some(body) = body_item(text, field(value, Field::SegmentMarker)) else {
            return Ok(None);
        };
        let Some(props) = optional_props(field(value, Field::SegmentProps)) else {
            return Ok(None);
        };
        let Some(author) = author(limits, value) else {
            return Ok(None);
        };
        let Some(stamps) = stamp_item(alloc, author, value)? else {
            return Ok(None);
        };
        Ok(Some(SegItem {
            body,
            props,
            stamps,
        }))
    }

    fn may_stand(items: &[SegItem<'a>]) -> bool {
        !items.is_empty()
    }
}

// How many elements the segments have.
//
// Returns `OutOfMemory` where they are more than a `u64` holds, which no memory has room for.
fn items_len(segs: &[SegItem]) -> Result<u64, OutOfMemory>
    ensures { IfOk result (λ n. n ≡ given_length (map segment_of segs.now)) }
{
    let mut elements: u64 = 0;
    for seg in segs {
        elements = elements.checked_add(item_len(seg.body)).ok_or(OutOfMemory)?;
    }
    Ok(elements)
}

// How many elements a segment has that holds this.
fn item_len(body: BodyItem<'_>) -> u64
    ensures { result ≡ body_length (body_of body.entry) }
{
    match body {
        BodyItem::Letters(text) => char_count(text) as u64,
        BodyItem::Sign(_) => 1,
    }
}

// The segments of the chunks that the values are: None where one has not the form.
fn text_items(
    alloc: Global,
    version: u64,
    values: &[Value],
) -> Result<Option<TextItem<'_>>, OutOfMemory>
    ensures { IfOk result (λ text. option_map text_of text ≡ narrow_chunks version (map view values.now)) }
{
    let mut segs = Vec::new(alloc);
    let mut lengths = Vec::new(alloc);
    for value in values {
        let Some(mut chunk) = read_array::<SegItem>(alloc, version, value)? else {
            return Ok(None);
        };
        lengths.push(items_len(&chunk)?)?;
        segs.append(&mut chunk)?;
    }
    Ok(Some(TextItem { segs, lengths }))
}

/// The text that the value is: None where it has not the form.
pub(crate) fn text_item(
    alloc: Global,
    version: u64,
    value: &Value,
) -> Result<Option<TextItem<'_>>, OutOfMemory>
    ensures { IfOk result (λ text. option_map text_of text ≡ narrow_text version (view value.now)) }
{
    let Some(values) = items(value) else {
        return Ok(None);
    };
    text_items(alloc, version, values)
}

/// The properties of the entries of an object.
pub(crate) fn keep_props(alloc: Global, entries: &Map<String, Value>) -> Result<Props, JsonFault>
    requires { IsTrue (has_no_null (entry_pairs entries.now.entries)) }
    ensures { Reads JsonFault.OutOfMemory (kept_props (entry_pairs entries.now.entries)) HasValues result }
{
    let mut props = Props::new(alloc);
    for (key, value) in entries.iter() {
        let value = canonical(alloc, value)?;
        props.put(Text::new(alloc, key.as_str())?, value)?;
    }
    Ok(props)
}

// The properties of a segment, none where it gives none.
fn keep_given(alloc: Global, entries: Option<&Map<String, Value>>) -> Result<Props, JsonFault>
    requires { IsTrue (has_no_null (given_pairs entries)) }
    ensures { Reads JsonFault.OutOfMemory (kept_props (given_pairs entries.entry)) HasValues result }
{
    match entries {
        Some(entries) => keep_props(alloc, entries),
        None => Ok(Props::new(alloc)),
    }
}

// What a segment holds, as it is kept.
fn keep_body(alloc: Global, body: BodyItem<'_>) -> Result<Seg, OutOfMemory>
    ensures { IfOk result (λ seg. seg ≡ body_of body.entry) }
{
    match body {
        BodyItem::Letters(text) => Ok(Seg::Chars {
            text: Text::new(alloc, text)?,
        }),
        BodyItem::Sign(ref_type) => Ok(Seg::Marker { ref_type }),
    }
}

impl<'a> KeptItem for SegItem<'a> {
    ghost use Rattle.std.specs.Prelude.{◌≡◌, true};
    ghost use Rattle.ft_sumdoc.specs.Forms.{has_no_null};
    ghost use Rattle.ft_sumdoc.specs.Items.{segment_of};
    ghost use Rattle.ft_sumdoc.specs.Segments.{GivenSegment};
    ghost use Rattle.ft_sumdoc.specs.Valid.{HasValues};
    ghost use Rattle.ft_sumdoc.specs.Values.{kept_segment};

    type Record = SegRec;

    ghost Meant = { GivenSegment };

    ghost meaning = { segment_of };

    ghost kept = { kept_segment };

    ghost IsGiven = { λ seg. has_no_null seg.props ≡ true };

    ghost IsFormed = { λ seg. HasValues seg.props };

    fn keep(&self, alloc: Global) -> Result<SegRec, JsonFault> {
        let props = keep_given(alloc, self.props)?;
        Ok(SegRec {
            body: keep_body(alloc, self.body)?,
            props,
            by: given_author(&self.stamps),
            ins: given_insertion(&self.stamps),
            dels: self.stamps.removals.copy()?,
        })
    }
}
