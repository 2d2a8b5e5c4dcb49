//! The segments of a summary, made from the leaves of a text in order: one is open, and the next element goes on with it or ends
//! it.

ghost use Rattle.std.specs.Prelude.{◌≡◌, ℕ, ◌∷◌, ◌++◌, [], IfOk, IsTrue, None, OnOk, Some, chars, map, string_bytes, true};
ghost use Rattle.ft_block.specs.Leaves.{IsLeafIn, value_at};
ghost use Rattle.ft_tree_leaves.specs.declared.leaves.TreeLeaf.{TreeLeaf};
ghost use Rattle.ft_tree_leaves.specs.declared.text.TextContent.{TextContent};
ghost use Rattle.ft_tree_leaves.specs.TextLeaves.{text_units};
ghost use Rattle.ft_msg.specs.OpenSegments.{body_of_parts, ended_segments, open_segment};
ghost use Rattle.ft_msg.specs.SummaryOf.{joined_bodies};
ghost use Rattle.ft_props.specs.Element.{Character, MarkerOf};
ghost use Rattle.ft_sumdoc.specs.declared.summary.SegRec.{SegRec};
ghost use Rattle.ft_sumdoc.specs.declared.summary.Seg.TheVariants.{Chars as characters_of};
ghost use Rattle.ft_sumdoc.specs.WellFormed.{are_alike, are_characters};
ghost use Rattle.ft_text.specs.Saved.{Adds, head_of, headed, joined_from, leaf_segments, segments_in, unit_segment, whole};

use crate::contents::{characters, push_character};
use crate::lengths::sum;
use crate::moved::assign;
use ft_arena::NodeId;
use ft_base::{Datum, OutOfMemory, Text};
use ft_marks::{
    author_of, insertion_of, is_collectable, marks_of, same_mark, same_props, same_stamps,
};
use ft_props::Props;
use ft_sumdoc::{CHUNK_LENGTH, Mark, Marks, Seg, SegRec, SegRecs};
use ft_tree::{TextContent, Tree};
use std::alloc::Global;
use std::marker::Model;

/// What a segment has beside its content.
#[derive(Drop)]
struct Head {
    props: Props,
    by: Mark,
    ins: Mark,
    dels: Marks,
}

/// A segment that the next element may go on with, which contracts see as that segment.
#[derive(Drop)]
struct OpenSegment {
    /// The reference type of a marker. None is for characters.
    marker: Option<u64>,
    text: String,
    props: Props,
    by: Mark,
    ins: Mark,
    dels: Marks,
}

impl Model for OpenSegment {
    ghost use Rattle.std.specs.Prelude.{chars, string_bytes};
    ghost use Rattle.ft_sumdoc.specs.declared.summary.SegRec.{SegRec};
    ghost use Rattle.ft_msg.specs.OpenSegments.{body_of_parts};

    ghost Value = { SegRec };

    ghost view = { λ a. record { body = body_of_parts a.marker (chars (string_bytes a.text)); props = a.props; by = a.by; ins = a.ins; dels = a.dels } };
}

/// The segments of the elements so far.
#[derive(Drop)]
pub(crate) struct Segments {
    list: SegRecs,
    last: Option<OpenSegment>,
    count: u64,
}

// The head of the segment of a leaf.
fn head_of(tree: &Tree<TextContent>, leaf: NodeId, min: u64) -> Result<Head, OutOfMemory>
    requires usable { IsTrue tree.now.usable }
    requires live { IsLeafIn tree.now.leaves leaf }
    ensures { IfOk result (λ head. (x : TreeLeaf TextContent) → value_at tree.now.leaves leaf ≡ Some x → head ≡ head_of min x.stamps x.content.by x.overlay) }
{
    let stamps = tree.leaf_element(leaf);
    let dels = marks_of(tree.allocator(), stamps.dels.as_slice())?;
    let props = tree.leaf_overlay(leaf).acked().copy()?;
    Ok(Head {
        props,
        by: author_of(tree.leaf_content(leaf).by()),
        ins: insertion_of(&stamps.ins, min),
        dels,
    })
}

impl OpenSegment {
    // The segment with this head of these characters, or of a marker.
    fn with_head(marker: Option<u64>, text: String, head: &Head) -> Result<OpenSegment, OutOfMemory>
        ensures { IfOk result (λ seg. seg ≡ headed head.now (body_of_parts marker (chars (string_bytes text)))) }
    {
        let props = head.props.copy()?;
        let dels = head.dels.copy()?;
        Ok(OpenSegment {
            marker,
            text,
            props,
            by: head.by,
            ins: head.ins,
            dels,
        })
    }

    // The segment of a character.
    fn of_character(alloc: Global, c: char, head: &Head) -> Result<OpenSegment, OutOfMemory>
        ensures { IfOk result (λ seg. seg ≡ unit_segment head.now (Character c)) }
    {
        let mut text = String::new(alloc);
        push_character(&mut text, c)?;
        OpenSegment::with_head(None, text, head)
    }

    // The segment of a marker.
    fn of_marker(alloc: Global, ref_type: u64, head: &Head) -> Result<OpenSegment, OutOfMemory>
        ensures { IfOk result (λ seg. seg ≡ unit_segment head.now (MarkerOf ref_type)) }
    {
        OpenSegment::with_head(Some(ref_type), String::new(alloc), head)
    }

    // Whether the segment of a character with this head is one run with it.
    fn goes_on_with(&self, head: &Head) -> bool
        ensures { (c : ℕ) → result ≡ are_alike self.now (unit_segment head.now (Character c)) }
    {
        self.marker.is_none()
            && same_props(&self.props, &head.props)
            && same_mark(self.by, head.by)
            && same_stamps(self.ins, &self.dels, head.ins, &head.dels)
    }

    // The segment with one more character.
    fn joined(self, c: char) -> Result<OpenSegment, OutOfMemory>
        requires { are_characters self.body (characters_of []) ≡ true }
        ensures { IfOk result (λ seg. seg ≡ record self { body = joined_bodies self.body (characters_of (c ∷ [])) }) }
    {
        let mut seg = self;
        push_character(&mut seg.text, c)?;
        Ok(seg)
    }

    // The segment as a summary has it.
    fn into_segment(self) -> SegRec
        ensures { result ≡ self }
    {
        let OpenSegment {
            marker,
            text,
            props,
            by,
            ins,
            dels,
        } = self;
        let body = match marker {
            Some(ref_type) => Seg::Marker { ref_type },
            None => Seg::Chars {
                text: Text::from_string(text),
            },
        };
        SegRec {
            body,
            props,
            by,
            ins,
            dels,
        }
    }
}

// The segment that is open after a character; one that ends before it is added. A chunk `begins` with the character or doesn't.
fn extend(
    segs: &mut SegRecs,
    last: Option<OpenSegment>,
    begins: bool,
    c: char,
    head: &Head,
) -> Result<OpenSegment, OutOfMemory>
    ensures ended { OnOk result (segs.new ≡ segs.old ++ ended_segments begins last (unit_segment head.now (Character c))) }
    ensures last { IfOk result (λ seg. seg ≡ open_segment begins last (unit_segment head.now (Character c))) }
{
    let alloc = segs.allocator();
    if let Some(last) = last {
        if !begins && last.goes_on_with(head) {
            return last.joined(c);
        }
        segs.push(last.into_segment())?;
    }
    OpenSegment::of_character(alloc, c, head)
}

// Adds the open segment to the list, if there is one.
fn end(segs: &mut SegRecs, last: Option<OpenSegment>) -> Result<(), OutOfMemory>
    ensures none { OnOk result (last ≡ None → segs.new ≡ segs.old) }
    ensures some { OnOk result ((seg : SegRec) → last ≡ Some seg → segs.new ≡ segs.old ++ seg ∷ []) }
{
    if let Some(last) = last {
        segs.push(last.into_segment())?;
    }
    Ok(())
}

impl Segments {
    /// None so far.
    pub(crate) fn new(alloc: Global) -> Segments
        ensures { result ≡ record { list = []; last = None; count = 0 } }
    {
        Segments {
            list: SegRecs::new(alloc),
            last: None,
            count: 0,
        }
    }

    /// Adds the elements of a leaf, but where it was removed at or below the minimum.
    pub(crate) fn add(
        &mut self,
        tree: &Tree<TextContent>,
        leaf: NodeId,
        min: u64,
    ) -> Result<(), OutOfMemory>
        requires usable { IsTrue tree.now.usable }
        requires live { IsLeafIn tree.now.leaves leaf }
        ensures { OnOk result ((x : TreeLeaf TextContent) → value_at tree.now.leaves leaf ≡ Some x → Adds (leaf_segments min x) self.old self.new) }
    {
        if is_collectable(tree.leaf_element(leaf).dels.as_slice(), min) {
            return Ok(());
        }
        let head = head_of(tree, leaf, min)?;
        self.add_content(tree.leaf_content(leaf), tree.allocator(), &head)
    }

    // Adds the elements of a content.
    fn add_content(
        &mut self,
        content: &TextContent,
        alloc: Global,
        head: &Head,
    ) -> Result<(), OutOfMemory>
        ensures { OnOk result (Adds (map (unit_segment head.now) (text_units content.now)) self.old self.new) }
    {
        match content.text() {
            Some(text) => self.add_characters(&characters(alloc, text)?, head),
            None => match content.ref_type() {
                Some(ref_type) => self.add_marker(ref_type, head),
                None => Ok(()),
            },
        }
    }

    // Adds characters.
    fn add_characters(&mut self, text: &[char], head: &Head) -> Result<(), OutOfMemory>
        ensures { OnOk result (Adds (map (λ c. unit_segment head.now (Character c)) text.now) self.old self.new) }
    {
        for c in text {
            self.add_character(*c, head)?;
        }
        Ok(())
    }

    // Adds a character.
    fn add_character(&mut self, c: char, head: &Head) -> Result<(), OutOfMemory>
        ensures { OnOk result (Adds (unit_segment head.now (Character c) ∷ []) self.old self.new) }
    {
        let begins = self.count % CHUNK_LENGTH as u64 == 0;
        self.count = sum(self.count, 1)?;
        let last = self.last.take();
        let next = extend(&mut self.list, last, begins, c, head)?;
        assign(&mut self.last, Some(next));
        Ok(())
    }

    // Adds a marker.
    fn add_marker(&mut self, ref_type: u64, head: &Head) -> Result<(), OutOfMemory>
        ensures { OnOk result (Adds (unit_segment head.now (MarkerOf ref_type) ∷ []) self.old self.new) }
    {
        let alloc = self.list.allocator();
        self.count = sum(self.count, 1)?;
        let last = self.last.take();
        end(&mut self.list, last)?;
        let next = OpenSegment::of_marker(alloc, ref_type, head)?;
        assign(&mut self.last, Some(next));
        Ok(())
    }

    /// All segments.
    pub(crate) fn into_list(self) -> Result<SegRecs, OutOfMemory>
        ensures { IfOk result (λ segs. segs ≡ whole self []) }
    {
        let mut list = self.list;
        end(&mut list, self.last)?;
        Ok(list)
    }
}

/// The segments of the elements of a text, as a summary with this minimum has them.
pub fn segments_of(tree: &Tree<TextContent>, min: u64) -> Result<SegRecs, OutOfMemory>
    requires { IsTrue tree.now.usable }
    ensures { IfOk result (λ segs. segs ≡ joined_from 0 (segments_in min tree.now.leaves)) }
{
    let mut segments = Segments::new(tree.allocator());
    let mut next = tree.first_leaf();
    while let Some(leaf) = next {
        segments.add(tree, leaf, min)?;
        next = tree.next_leaf(leaf);
    }
    segments.into_list()
}
