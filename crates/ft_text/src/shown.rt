//! What is shown of a text: one walk over its leaves.

ghost use Rattle.std.specs.Prelude.{◌≡◌, ◌≤◌, ◌+◌, ◌++◌, [], ◌∷◌, List, IfOk, IsTrue, OnOk, Some, chars, length, option_map, string_bytes};
ghost use Rattle.ft_msg.specs.Blame.{origin_of};
ghost use Rattle.ft_props.specs.Properties.{max_safe_integer};
ghost use Rattle.ft_text.specs.Shows.{AddsLeaf, AddsShown, KeepsOthers, ShowsLeaves, characters_in, characters_of, continued, is_shown_leaf, leaf_origins, markers_in, markers_of, origins_in, runs_in, with_properties};
ghost use Rattle.ft_block.specs.Leaves.{IsLeafIn, value_at};
ghost use Rattle.ft_tree_leaves.specs.declared.leaves.TreeLeaf.{TreeLeaf};
ghost use Rattle.ft_tree_leaves.specs.declared.text.TextContent.{TextContent};
ghost use Rattle.ft_tree_leaves.specs.TextLeaves.{text_units};
ghost use Rattle.ft_msg.specs.declared.views.Run.{Run};

use crate::moved::assign;
use ft_arena::NodeId;
use ft_attrib::{Attribution, Origin};
use ft_base::moved::push;
use ft_base::{Datum, List, OutOfMemory, Stamp, Text, seen_at};
use ft_msg::{Run, Spot, Spots, View};
use ft_props::Props;
use ft_tree::{TextContent, Tree};
use std::alloc::Global;

/// What was shown of the elements so far.
#[derive(Drop)]
struct Shown {
    text: String,
    markers: Spots,
    runs: Vec<Run>,
    count: u64,
}

impl Shown {
    // Nothing so far.
    fn new(alloc: Global) -> Shown
        ensures text { chars (string_bytes result.text) ≡ [] }
        ensures markers { result.markers ≡ [] }
        ensures runs { result.runs.items ≡ [] }
        ensures count { result.count ≡ 0 }
    {
        Shown {
            text: String::new(alloc),
            markers: Spots::new(alloc),
            runs: Vec::new(alloc),
            count: 0,
        }
    }

    // Shows the elements of a leaf behind those so far.
    //
    // Returns `OutOfMemory` where there is no room for them, or they would be more than 2^64 - 1.
    fn add(&mut self, content: &TextContent, len: u64, props: &Props) -> Result<(), OutOfMemory>
        requires counted { len ≡ length (text_units content.now) }
        requires some { 1 ≤ len }
        ensures { OnOk result (AddsShown (text_units content.now) props.now self.old self.new) }
    {
        push_text(&mut self.text, content)?;
        push_marker(&mut self.markers, self.count, content)?;
        let end = self.count.checked_add(len).ok_or(OutOfMemory)?;
        push_run(&mut self.runs, self.count, end, props)?;
        self.count = end;
        Ok(())
    }
}

// Adds the characters of a content.
fn push_text(text: &mut String, content: &TextContent) -> Result<(), OutOfMemory>
    ensures { OnOk result (chars (string_bytes text.new) ≡ chars (string_bytes text.old) ++ characters_of (text_units content.now)) }
{
    if let Some(run) = content.text() {
        text.push_str(run)?;
    }
    Ok(())
}

// Adds the marker with its place, if the content is one.
fn push_marker(markers: &mut Spots, pos: u64, content: &TextContent) -> Result<(), OutOfMemory>
    ensures { OnOk result (markers.new ≡ markers.old ++ markers_of pos (text_units content.now)) }
{
    if let Some(ref_type) = content.ref_type() {
        markers.push(Spot { pos, ref_type })?;
    }
    Ok(())
}

// Adds a run of properties, if they aren't empty: it goes on with the last one where that ends where it begins and has equal
// properties.
fn push_run(runs: &mut Vec<Run>, start: u64, end: u64, props: &Props) -> Result<(), OutOfMemory>
    ensures { OnOk result ((more : List Run) → continued runs.new.items more ≡ continued runs.old.items (with_properties start end props.now more)) }
{
    if props.is_empty() {
        return Ok(());
    }
    let Some(mut last) = runs.pop() else {
        return begin_run(runs, start, end, props);
    };
    if last.end == start && last.props.same(props) {
        last.end = end;
        return push(runs, last);
    }
    push(runs, last)?;
    begin_run(runs, start, end, props)
}

// Adds a run behind the others.
fn begin_run(runs: &mut Vec<Run>, start: u64, end: u64, props: &Props) -> Result<(), OutOfMemory>
    ensures { OnOk result (runs.new.items ≡ runs.old.items ++ record { start = start; end = end; props = props.now } ∷ []) }
{
    let props = props.copy()?;
    push(runs, Run { start, end, props })
}

// Whether the client sees the elements of a leaf.
fn is_seen(tree: &Tree<TextContent>, leaf: NodeId) -> bool
    requires usable { IsTrue tree.now.usable }
    requires live { IsLeafIn tree.now.leaves leaf }
    ensures { option_map is_shown_leaf (value_at tree.now.leaves leaf) ≡ Some result }
{
    seen_at(tree.leaf_element(leaf), u64::MAX)
}

// Shows the elements of a leaf behind those so far, if the client sees them.
//
// Returns `OutOfMemory` where there is no room for them, or they would be more than 2^64 - 1.
fn add_leaf(tree: &Tree<TextContent>, leaf: NodeId, shown: &mut Shown) -> Result<(), OutOfMemory>
    requires usable { IsTrue tree.now.usable }
    requires live { IsLeafIn tree.now.leaves leaf }
    ensures { OnOk result ((x : TreeLeaf TextContent) → value_at tree.now.leaves leaf ≡ Some x → AddsLeaf x shown.old shown.new) }
{
    if !is_seen(tree, leaf) {
        return Ok(());
    }
    let len = tree.leaf_len(leaf);
    let props = tree.leaf_overlay(leaf).shown_props();
    shown.add(tree.leaf_content(leaf), len, props)
}

// What is shown of all elements.
fn show_all(tree: &Tree<TextContent>) -> Result<Shown, OutOfMemory>
    requires { IsTrue tree.now.usable }
    ensures { IfOk result (λ shown. ShowsLeaves tree.now.leaves shown) }
{
    let mut shown = Shown::new(tree.allocator());
    let mut next = tree.first_leaf();
    while let Some(leaf) = next {
        add_leaf(tree, leaf, &mut shown)?;
        next = tree.next_leaf(leaf);
    }
    Ok(shown)
}

/// Fills what a view has of the elements.
pub fn show_elements(tree: &Tree<TextContent>, out: &mut View) -> Result<(), OutOfMemory>
    requires { IsTrue tree.now.usable }
    ensures text { OnOk result (out.new.text ≡ characters_in tree.now.leaves) }
    ensures markers { OnOk result (out.new.markers ≡ markers_in 0 tree.now.leaves) }
    ensures runs { OnOk result (out.new.runs ≡ runs_in 0 tree.now.leaves) }
    ensures others { KeepsOthers out.old out.new }
{
    let shown = show_all(tree)?;
    assign(&mut out.text, Text::from_string(shown.text));
    assign(&mut out.markers, shown.markers);
    assign(&mut out.runs, List::of(shown.runs));
    Ok(())
}

// Adds who inserted the elements of a leaf, if the client sees them.
fn add_origin(
    tree: &Tree<TextContent>,
    leaf: NodeId,
    origins: &mut Attribution,
) -> Result<(), OutOfMemory>
    requires usable { IsTrue tree.now.usable }
    requires live { IsLeafIn tree.now.leaves leaf }
    requires few { (x : TreeLeaf TextContent) → value_at tree.now.leaves leaf ≡ Some x → length origins.old + length (leaf_origins x) ≤ max_safe_integer }
    ensures { OnOk result ((x : TreeLeaf TextContent) → value_at tree.now.leaves leaf ≡ Some x → origins.new ≡ origins.old ++ leaf_origins x) }
{
    if !is_seen(tree, leaf) {
        return Ok(());
    }
    origins.push(tree.leaf_len(leaf), origin_of(tree.leaf_content(leaf)))
}

/// Who inserted each element that the client sees.
pub fn origins_of(tree: &Tree<TextContent>) -> Result<Attribution, OutOfMemory>
    requires { IsTrue tree.now.usable }
    ensures { IfOk result (λ origins. origins ≡ origins_in tree.now.leaves) }
{
    // That origins are few is read off its contract.
    let _made = tree.made();
    let mut origins = Attribution::new(tree.allocator());
    let mut next = tree.first_leaf();
    while let Some(leaf) = next {
        add_origin(tree, leaf, &mut origins)?;
        next = tree.next_leaf(leaf);
    }
    Ok(origins)
}

// Who inserted the elements of a leaf.
fn origin_of(content: &TextContent) -> Origin
    ensures { result ≡ origin_of content.now.by }
{
    match content.by() {
        None | Some(Stamp::Local { .. }) => Origin::Pending,
        Some(Stamp::Acked { seq: 0, conn: 0 }) => Origin::Unknown,
        Some(Stamp::Acked { seq, conn }) => Origin::Known { seq, conn },
    }
}
