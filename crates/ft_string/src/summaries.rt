//! A shared text from a summary, and as one.

ghost use Rattle.std.specs.Prelude.{◌≡◌, ℕ, ◌≤◌, [], IfOk, IsTrue, None, OnOk, flat_map, true};
ghost use Rattle.ft_op.specs.Document.{Document};
ghost use Rattle.ft_msg.specs.Summary.{doc_of, segment_bodies};
ghost use Rattle.ft_props.specs.Keys.{key_cmp, put_rising};
ghost use Rattle.ft_props.specs.Properties.{apply};
ghost use Rattle.ft_sumdoc.specs.declared.summary.IntervalRec.{IntervalRec};
ghost use Rattle.ft_sumdoc.specs.Forms.{rises};
ghost use Rattle.ft_sumdoc.specs.Valid.{IsValidSummary, is_interval_before};
ghost use Rattle.ft_interval.specs.State.{StandsOn};
ghost use Rattle.ft_interval_store.specs.State.{is_interval_operation, text_elements};
ghost use Rattle.ft_tree_leaves.specs.References.{reference_at};
ghost use Rattle.ft_tree_leaves.specs.TextLeaves.{text_units};
ghost use Rattle.ft_text.specs.Contents.{contents_in};
ghost use Rattle.ft_string.specs.Calls.{HasNoText, KeepsSummary, SavesText};
ghost use Rattle.ft_string.specs.Holds.{HoldsSome, HoldsText, IsTextSound};
ghost use Rattle.ft_string.specs.Loads.{AddsInterval, AllFitOn, Appends, HasIntervals, IsAddOf, everybody, fits_on, given_ends, given_property, segment_elements, summary_elements};
ghost use Rattle.ft_string.specs.Parts.{AreSound, state_of};

use crate::strings::SharedString;
use ft_base::moved::{all_three, beside, both};
use ft_base::{Datum, List, OutOfMemory, Perspective, Text};
use ft_interval::Collections;
use ft_json::ValText;
use ft_marks::element_of;
use ft_op::{Ends, TextOp};
use ft_props::{PropSet, Props};
use ft_sumdoc::{Ends2, IntervalRec, Seg, SegRec, SumDoc};
use ft_text::contents::{Contents, runs_of};
use ft_text::lengths::{have_room, made_in};
use ft_text::moved::assign;
use ft_text::segments::segments_of;
use ft_tree::{Content, TextContent, Tree};
use std::alloc::Global;
use std::collections::VecDeque;

// The contents of the leaves of a segment of a summary.
fn contents_of(alloc: Global, seg: &Seg) -> Result<Contents, OutOfMemory>
    ensures { IfOk result (λ c. flat_map text_units (contents_in c) ≡ segment_bodies seg.now) }
{
    match seg {
        Seg::Chars { text } => runs_of(alloc, text.as_str()),
        Seg::Marker { ref_type } => Ok(Contents::one(alloc, TextContent::marker(*ref_type))),
    }
}

// Puts the elements of a content at the end, with what the segment has beside its content.
//
// Returns `OutOfMemory` where there is no room for them, or the number of elements would pass its limit.
fn append_content(
    tree: &mut Tree<TextContent>,
    content: TextContent,
    seg: &SegRec,
) -> Result<(), OutOfMemory>
    requires { IsTrue tree.old.usable }
    ensures { OnOk result (Appends (segment_elements seg.now (text_units content)) tree.old tree.new) }
{
    let mut content = content;
    if !have_room(tree.made(), content.len()) {
        return Err(OutOfMemory);
    }
    content.stamped(seg.by.seq, seg.by.conn);
    let stamps = element_of(tree.allocator(), seg.ins, &seg.dels)?;
    tree.append(content, &seg.props, stamps)
}

// Puts the elements of contents at the end.
//
// Returns `OutOfMemory` where there is no room for them, or the number of elements would pass its limit.
fn append_contents(
    tree: &mut Tree<TextContent>,
    contents: Vec<TextContent>,
    seg: &SegRec,
) -> Result<(), OutOfMemory>
    requires { IsTrue tree.old.usable }
    ensures { OnOk result (Appends (segment_elements seg.now (flat_map text_units contents.items)) tree.old tree.new) }
{
    for content in contents {
        append_content(tree, content, seg)?;
    }
    Ok(())
}

// Puts the elements of a segment at the end.
//
// Returns `OutOfMemory` where there is no room for them, or the number of elements would pass its limit.
fn append(tree: &mut Tree<TextContent>, seg: &SegRec) -> Result<(), OutOfMemory>
    requires { IsTrue tree.old.usable }
    ensures { OnOk result (Appends (segment_elements seg.now (segment_bodies seg.now.body)) tree.old tree.new) }
{
    let Contents { before, last } = contents_of(tree.allocator(), &seg.body)?;
    append_contents(tree, before, seg)?;
    match last {
        Some(content) => append_content(tree, content, seg),
        None => Ok(()),
    }
}

// Puts the elements of segments at the end.
//
// Returns `OutOfMemory` where there is no room for them, or the number of elements would pass its limit.
fn append_all(tree: &mut Tree<TextContent>, segs: &[SegRec]) -> Result<(), OutOfMemory>
    requires { IsTrue tree.old.usable }
    ensures { OnOk result (Appends (summary_elements segs.now) tree.old tree.new) }
{
    for seg in segs {
        append(tree, seg)?;
    }
    Ok(())
}

// Sets a property in a set.
fn put_copy(set: &mut PropSet, property: &(Text, ValText)) -> Result<(), OutOfMemory>
    ensures { OnOk result (set.new ≡ put_rising key_cmp (given_property property.now) set.old) }
{
    let (key, value) = both(property.0.copy(), property.1.copy())?;
    set.put(key, Some(value))
}

// Properties as a set that makes them.
fn set_of(props: &Props) -> Result<PropSet, OutOfMemory>
    ensures { IfOk result (λ set. apply [] set ≡ props.now) }
{
    let mut set = PropSet::new(props.allocator());
    let properties = props.as_slice();
    for property in properties {
        put_copy(&mut set, property)?;
    }
    Ok(set)
}

// The ends of an interval of a summary as an operation gives them.
fn given_ends(ends: Ends2) -> Ends
    ensures { result ≡ given_ends ends }
{
    Ends {
        start: ends.start,
        end: ends.end,
    }
}

// The operation that adds an interval of a summary.
fn add_of(i: &IntervalRec) -> Result<TextOp, OutOfMemory>
    ensures { IfOk result (λ op. IsAddOf i.now op) }
{
    let (label, id, props) = all_three(i.label.copy(), i.id.copy(), set_of(&i.props))?;
    Ok(TextOp::IntervalAdd {
        label,
        id,
        ends: given_ends(i.ends),
        props,
    })
}

// The perspective that sees all that is sequenced, and nothing else.
fn everybody() -> Perspective
    ensures { result ≡ everybody }
{
    Perspective { r: u64::MAX, c: 0 }
}

// Applies the operation that adds an interval of a summary.
fn apply_add(
    intervals: &mut Collections,
    tree: &mut Tree<TextContent>,
    op: &TextOp,
) -> Result<(), OutOfMemory>
    requires usable { IsTrue tree.old.usable }
    requires floor { tree.old.floor ≡ 0 }
    requires stands { StandsOn tree.old intervals.old }
    requires kind { is_interval_operation op.now ≡ true }
    ensures adds { (i : IntervalRec) → IsAddOf i op.now → fits_on (text_elements tree.old) i ≡ true
        → OnOk result (AddsInterval i intervals.old.state intervals.new.state tree.old tree.new) }
    ensures stands { OnOk result (StandsOn tree.new intervals.new) }
{
    let _fits = intervals.apply(tree, op, everybody())?;
    Ok(())
}

// Adds an interval of a summary, where its ends fit.
fn add_interval(
    intervals: &mut Collections,
    tree: &mut Tree<TextContent>,
    i: &IntervalRec,
) -> Result<(), OutOfMemory>
    requires usable { IsTrue tree.old.usable }
    requires floor { tree.old.floor ≡ 0 }
    requires stands { StandsOn tree.old intervals.old }
    requires fits { fits_on (text_elements tree.old) i.now ≡ true }
    ensures adds { OnOk result (AddsInterval i.now intervals.old.state intervals.new.state tree.old tree.new) }
    ensures stands { OnOk result (StandsOn tree.new intervals.new) }
{
    let op = add_of(i)?;
    let added = apply_add(intervals, tree, &op);
    drop(op);
    added
}

// The intervals of a summary, by rising names, on a tree that has no references.
fn intervals_on(
    tree: &mut Tree<TextContent>,
    recs: &[IntervalRec],
) -> Result<Collections, OutOfMemory>
    requires usable { IsTrue tree.old.usable }
    requires floor { tree.old.floor ≡ 0 }
    requires bare { (r : ℕ) → reference_at tree.old.refs r ≡ None }
    requires rise { rises is_interval_before recs.now ≡ true }
    requires fit { AllFitOn (text_elements tree.old) recs.now }
    ensures has { IfOk result (λ c. HasIntervals recs.now tree.old tree.new c.state) }
    ensures stands { IfOk result (λ c. StandsOn tree.new c) }
{
    let mut intervals = Collections::new(tree.allocator());
    for i in recs {
        add_interval(&mut intervals, tree, i)?;
    }
    Ok(intervals)
}

// Puts the elements and the intervals of a summary on a tree that has none.
fn fill(tree: &mut Tree<TextContent>, doc: &SumDoc) -> Result<Collections, OutOfMemory>
    requires none { tree.old ≡ record { leaves = []; refs = []; floor = 0; sweep = None; made = 0; depth = 0; usable = true } }
    requires valid { IsValidSummary doc.now }
    ensures holds { IfOk result (λ c. HoldsText (state_of tree.new c.state [] 0 true) (doc_of doc.now) []) }
    ensures sound { IfOk result (λ c. AreSound tree.new c.state) }
    ensures stands { IfOk result (λ c. StandsOn tree.new c) }
    ensures floor { OnOk result (tree.new.floor ≡ 0) }
{
    append_all(tree, doc.text.as_slice())?;
    intervals_on(tree, doc.intervals.as_slice())
}

impl SharedString {
    /// The text that a summary gives.
    pub fn load(alloc: Global, doc: &SumDoc) -> Result<SharedString, OutOfMemory>
        requires { IsValidSummary doc.now }
        ensures holds { IfOk result (λ s. HoldsText s (doc_of doc.now) []) }
        ensures sound { IfOk result (HoldsSome 0) }
        ensures floor { IfOk result (λ s. s.floor ≡ 0) }
        ensures given { IfOk result (λ s. s.given ≡ 0) }
        ensures usable { IfOk result (λ s. IsTrue s.usable) }
    {
        let mut tree = Tree::new(alloc);
        let intervals = fill(&mut tree, doc);
        let (intervals, tree) = beside(intervals, tree)?;
        Ok(SharedString {
            tree,
            intervals,
            ops: VecDeque::new(alloc),
            again: VecDeque::new(alloc),
            given: 0,
            usable: true,
        })
    }

    /// Fills the text's part of a summary with the minimum that this has, where nothing is pending.
    ///
    /// Returns `OutOfMemory` where there is no room for it, and then the summary may have a part of it.
    pub fn save(&self, doc: &mut SumDoc) -> Result<(), OutOfMemory>
        requires usable { IsTrue self.now.usable }
        requires none_given { self.now.given ≡ 0 }
        requires ops { self.now.ops ≡ [] }
        requires interval_ops { self.now.interval_ops ≡ [] }
        requires floor { self.now.floor ≤ doc.old.min }
        requires empty { HasNoText doc.old }
        ensures saves { (last : ℕ) → (held : Document) → IsTextSound last held [] → HoldsText self.now held [] → OnOk result (SavesText held doc.old doc.new) }
        ensures others { KeepsSummary doc.old doc.new }
    {
        // That ends are numbers, and that names rise, is read off these contracts.
        let _made = made_in(&self.tree);
        let _first = self.intervals.first_stage();
        let text = segments_of(&self.tree, doc.min)?;
        assign(&mut doc.text, text);
        let intervals = self.intervals.all(&self.tree)?;
        assign(&mut doc.intervals, List::of(intervals));
        Ok(())
    }
}
