//! The segments of the text of a summary. They are made from the front: one is open, and the next element goes
//! on with it or ends it.

ghost use Rattle.std.specs.Prelude.{◌≡◌, ◌++◌, true, IfOk, OnOk, chars, map, string_bytes};
ghost use Rattle.ft_msg.specs.Content.{content_characters};
ghost use Rattle.ft_msg.specs.OpenSegments.{ended_segments, open_segment};
ghost use Rattle.ft_marks.specs.Marks.{mark_of};
ghost use Rattle.ft_msg.specs.SummaryOf.{element_body, joined_bodies, segment_of, segments_from};
ghost use Rattle.ft_sumdoc.specs.WellFormed.{are_alike, are_characters};
ghost use Rattle.ft_plain_lists.specs.Contents.{content_of};
ghost use Rattle.ft_plain_summary.specs.OpenSegments.{reference_type};

use ft_base::moved::{beside, both};
use ft_base::{Datum, OutOfMemory, Text};
use ft_marks::{author_of, mark_of, marks_of, same_mark, same_props, same_stamps};
use ft_plain_lists::{Content, PlainElement, push_character};
use ft_props::Props;
use ft_sumdoc::{CHUNK_LENGTH, Mark, Marks, Seg, SegRec, SegRecs};
use std::alloc::Global;
use std::marker::Model;

/// A segment that the next element may go on with, which contracts see as that segment.
#[derive(Drop)]
struct OpenSegment {
    /// The reference type of a marker. None is for characters.
    marker: Option<u64>,
    text: String,
    props: Props,
    by: Mark,
    ins: Mark,
    dels: Marks,
}

impl Model for OpenSegment {
    ghost use Rattle.std.specs.Prelude.{chars, string_bytes};
    ghost use Rattle.ft_sumdoc.specs.declared.summary.SegRec.{SegRec};
    ghost use Rattle.ft_msg.specs.OpenSegments.{body_of_parts};

    ghost Value = { SegRec };

    ghost view = { λ a. record { body = body_of_parts a.marker (chars (string_bytes a.text)); props = a.props; by = a.by; ins = a.ins; dels = a.dels } };
}

impl OpenSegment {
    // The segment of an element with these removals.
    fn new(alloc: Global, e: &PlainElement, dels: Marks) -> Result<OpenSegment, OutOfMemory>
        requires { dels ≡ map mark_of e.now.dels }
        ensures { IfOk result (λ seg. seg ≡ segment_of e.now) }
    {
        let content = e.content();
        let made = both(character_text(alloc, content), e.props().copy());
        let ((text, props), dels) = beside(made, dels)?;
        Ok(OpenSegment {
            marker: reference_type(content),
            text,
            props,
            by: author_of(e.by()),
            ins: mark_of(&e.ins()),
            dels,
        })
    }

    // Whether both are characters.
    fn goes_on_with(&self, content: Content) -> bool
        ensures { result ≡ are_characters self.now.body (element_body (content_of content)) }
    {
        self.marker.is_none() && reference_type(content).is_none()
    }

    // Whether the segment of the element with these removals is one run with it.
    fn is_alike(&self, e: &PlainElement, dels: &Marks) -> bool
        requires { dels.now ≡ map mark_of e.now.dels }
        ensures { result ≡ are_alike self.now (segment_of e.now) }
    {
        self.goes_on_with(e.content())
            && same_props(&self.props, e.props())
            && same_mark(self.by, author_of(e.by()))
            && same_stamps(self.ins, &self.dels, mark_of(&e.ins()), dels)
    }

    // The segment with one more element.
    fn joined(self, content: Content) -> Result<OpenSegment, OutOfMemory>
        requires { are_characters self.body (element_body (content_of content)) ≡ true }
        ensures { IfOk result (λ seg. seg ≡ record self { body = joined_bodies self.body (element_body (content_of content)) }) }
    {
        let mut seg = self;
        push_character(&mut seg.text, content)?;
        Ok(seg)
    }

    // The segment as a summary has it.
    fn into_segment(self) -> SegRec
        ensures { result ≡ self }
    {
        let OpenSegment {
            marker,
            text,
            props,
            by,
            ins,
            dels,
        } = self;
        let body = match marker {
            Some(ref_type) => Seg::Marker { ref_type },
            None => Seg::Chars {
                text: Text::from_string(text),
            },
        };
        SegRec {
            body,
            props,
            by,
            ins,
            dels,
        }
    }
}

// The text of the character, if the content is one.
fn character_text(alloc: Global, content: Content) -> Result<String, OutOfMemory>
    ensures { IfOk result (λ text. chars (string_bytes text) ≡ content_characters (content_of content)) }
{
    let mut text = String::new(alloc);
    push_character(&mut text, content)?;
    Ok(text)
}

// The reference type, if it is a marker.
fn reference_type(content: Content) -> Option<u64>
    ensures { result ≡ reference_type content }
{
    match content {
        Content::Marker(ref_type) => Some(ref_type),
        Content::Character(_) | Content::Unit => None,
    }
}

/// The segments of elements.
pub fn text_segments(alloc: Global, items: &[PlainElement]) -> Result<SegRecs, OutOfMemory>
    ensures { IfOk result (λ segs. segs ≡ segments_from 0 items.now) }
{
    let mut segs = SegRecs::new(alloc);
    let mut last = None;
    for (i, e) in items.iter().enumerate() {
        last = Some(extend(&mut segs, last, i % CHUNK_LENGTH == 0, e)?);
    }
    if let Some(last) = last {
        segs.push(last.into_segment())?;
    }
    Ok(segs)
}

// The segment that is open after the element; one that ends before it is added. A chunk `begins` with the
// element or doesn't.
fn extend(
    segs: &mut SegRecs,
    last: Option<OpenSegment>,
    begins: bool,
    e: &PlainElement,
) -> Result<OpenSegment, OutOfMemory>
    ensures ended { OnOk result (segs.new ≡ segs.old ++ ended_segments begins last (segment_of e.now)) }
    ensures last { IfOk result (λ seg. seg ≡ open_segment begins last (segment_of e.now)) }
{
    let alloc = segs.allocator();
    let (dels, last) = marks_beside(alloc, e, last)?;
    if let Some(last) = last {
        if !begins && last.is_alike(e, &dels) {
            return last.joined(e.content());
        }
        segs.push(last.into_segment())?;
    }
    OpenSegment::new(alloc, e, dels)
}

// The removals of the element, and the open segment beside them.
fn marks_beside(
    alloc: Global,
    e: &PlainElement,
    last: Option<OpenSegment>,
) -> Result<(Marks, Option<OpenSegment>), OutOfMemory>
    ensures dels { IfOk result (λ pair. pair.0 ≡ map mark_of e.now.dels) }
    ensures last { IfOk result (λ pair. pair.1 ≡ last) }
{
    beside(marks_of(alloc, e.dels()), last)
}
