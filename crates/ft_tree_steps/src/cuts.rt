//! Leaves in blocks: how they are cut at a place, and get a leaf there.

ghost use Rattle.std.specs.Prelude.{[], ◌≡◌, ◌+◌, ◌<◌, ◌≤◌, ◌^◌, ℕ, IfOk, IsTrue, OnOk, true, false, length};
ghost use Rattle.std.specs.List.{prefix_len};
ghost use Rattle.ft_base.specs.Scan.{place, put};
ghost use Rattle.ft_block.specs.declared.leaves.LenView.{LenView};
ghost use Rattle.ft_block.specs.Leaves.{IsPlaceIn, ids};
ghost use Rattle.ft_tree_leaves.specs.Edits.{up_to_place, with_place};
ghost use Rattle.ft_tree_leaves.specs.Elements.{new_elements, seen_in};
ghost use Rattle.ft_tree_leaves.specs.LeafLists.{Extends, elements, pending_leaves};
ghost use Rattle.ft_tree_leaves.specs.Places.{put_place, shifted_place};
ghost use Rattle.ft_tree_leaves.specs.Plain.{passes};
ghost use Rattle.ft_tree_leaves.specs.References.{ChangesReferences, KeepsReferences};
ghost use Rattle.ft_tree_leaves.specs.LeafChanges.{fresh_leaf};
ghost use Rattle.ft_props.specs.Properties.{apply};
ghost use Rattle.ft_tree_steps.specs.LeafSteps.{CutsBehind, IsInLeaf, PutsBehind, held_place};
ghost use Rattle.ft_tree_blocks.specs.Walks.{from_place, node_behind};

use ft_arena::NodeId;
use ft_base::{Element, OutOfMemory, Stamp, Stamps, Steps};
use ft_block::{Blocks, Found};
use ft_props::{Overlay, PropSet, Props};
use ft_tree_blocks::LeafBlocks;
use ft_tree_leaves::{Content, TreeLeaf};
use std::alloc::Global;
use std::sync::ledger::Ledger;

/// Cuts the leaf that was found behind the place, unless it ends there. Returns the leaf that ends there
/// then: none for the head. References keep their elements.
pub fn cut_at<C: Content>(
    blocks: &mut LeafBlocks<C>,
    found: &Found,
) -> Result<Option<NodeId>, OutOfMemory>
    requires usable { IsTrue blocks.old.usable }
    requires held { IsInLeaf C.units blocks.old.leaves found.now.leaf found.now.offset }
    ensures cut { let n = held_place C.units C.by blocks.old.leaves found.now.leaf found.now.offset in
        IfOk result (λ at. CutsBehind C.units C.by n blocks.old.leaves blocks.new.leaves at) }
    ensures refs { OnOk result (KeepsReferences blocks.old.refs blocks.new.refs) }
    ensures usable { OnOk result (blocks.new.usable ≡ true) }
    ensures floor { blocks.new.floor ≡ blocks.old.floor }
{
    // What holds of the leaves at any time is read off its contract.
    let _first = blocks.first();
    let Some(id) = found.leaf else {
        return Ok(None);
    };
    if blocks.leaf(id).content.len() == found.offset {
        return Ok(Some(id));
    }
    let _rear = blocks.split(id, found.offset)?;
    Ok(Some(id))
}

/// The leaf behind a place: the first for the head.
pub fn leaf_behind<C: Content>(blocks: &Blocks<TreeLeaf<C>>, at: Option<NodeId>) -> Option<NodeId>
    requires usable { IsTrue blocks.now.usable }
    requires place { IsPlaceIn blocks.now.leaves at }
    ensures { result ≡ node_behind blocks.now.leaves at }
{
    match at {
        Some(id) => blocks.next(id),
        None => blocks.first(),
    }
}

// The leaf behind which an insertion goes that passes the leaves with a pending one at the place, or that
// place where it is to pass none.
fn behind_run<C: Content, G: Ledger>(
    blocks: &Blocks<TreeLeaf<C>>,
    at: Option<NodeId>,
    past_pending: bool,
    steps: &mut Steps<G>,
) -> Option<NodeId>
    requires usable { IsTrue blocks.now.usable }
    requires place { IsPlaceIn blocks.now.leaves at }
    ensures live { IsPlaceIn blocks.now.leaves result }
    ensures run { let leaves = blocks.now.leaves in
        length (elements C.units C.by (up_to_place leaves result))
        ≡ length (elements C.units C.by (up_to_place leaves at)) + prefix_len (passes past_pending) (elements C.units C.by (from_place leaves (node_behind leaves at))) }
    ensures reads { steps.new ≤ steps.old + pending_leaves (from_place blocks.now.leaves (node_behind blocks.now.leaves at)) + 1 }
    ensures no_reads { past_pending ≡ false → steps.new ≡ steps.old }
{
    if !past_pending {
        return at;
    }
    // What holds of the leaves at any time is read off its contract.
    let _first = blocks.first();
    let mut end = at;
    let mut next = leaf_behind(blocks, at);
    while let Some(id) = next {
        let leaf = blocks.leaf_counted(id, steps);
        // That it has an element is read off its contract.
        let _len = leaf.content.len();
        if !leaf.is_pending() {
            return end;
        }
        end = next;
        next = blocks.next(id);
    }
    end
}

// Puts a leaf in behind a place where a leaf ends, or past the leaves with a pending insertion that stand
// there.
fn put_past<C: Content + Drop, G: Ledger>(
    blocks: &mut LeafBlocks<C>,
    at: Option<NodeId>,
    past_pending: bool,
    leaf: TreeLeaf<C>,
    steps: &mut Steps<G>,
) -> Result<(), OutOfMemory>
    requires usable { IsTrue blocks.old.usable }
    requires live { IsPlaceIn blocks.old.leaves at }
    requires fits { length (elements C.units C.by blocks.old.leaves) + length (C.units leaf.content) < 2 ^ 64 }
    requires settled { leaf.overlay.pending ≡ [] }
    ensures puts { let leaves = blocks.old.leaves in
        let run = prefix_len (passes past_pending) (elements C.units C.by (from_place leaves (node_behind leaves at))) in
        let i = length (elements C.units C.by (up_to_place leaves at)) + run in
        OnOk result (PutsBehind C.units C.by i leaf leaves blocks.new.leaves) }
    ensures refs { let leaves = blocks.old.leaves in
        let run = prefix_len (passes past_pending) (elements C.units C.by (from_place leaves (node_behind leaves at))) in
        let i = length (elements C.units C.by (up_to_place leaves at)) + run in
        OnOk result (ChangesReferences (with_place (shifted_place i (length (C.units leaf.content)))) blocks.old.refs blocks.new.refs) }
    ensures usable { OnOk result (blocks.new.usable ≡ true) }
    ensures floor { blocks.new.floor ≡ blocks.old.floor }
    ensures reads { steps.new ≤ steps.old + pending_leaves (from_place blocks.old.leaves (node_behind blocks.old.leaves at)) + 1 }
    ensures no_reads { past_pending ≡ false → steps.new ≡ steps.old }
{
    // What holds of the leaves at any time is read off its contract.
    let _first = blocks.first();
    let end = behind_run(blocks.list(), at, past_pending, steps);
    let _id = blocks.insert_after(end, leaf)?;
    Ok(())
}

// A leaf of new elements, which nobody has removed or changed.
fn new_leaf<C: Content + Drop>(
    alloc: Global,
    content: C,
    ins: Stamp,
    props: &PropSet,
) -> Result<TreeLeaf<C>, OutOfMemory>
    ensures { IfOk result (λ leaf. leaf ≡ fresh_leaf content ins (apply [] props.now)) }
{
    let acked = Props::new(alloc).applied(props)?;
    Ok(TreeLeaf {
        content,
        stamps: Element {
            ins,
            dels: Stamps::new(alloc),
        },
        overlay: Overlay::of(alloc, acked),
    })
}

/// Puts new elements in as one leaf directly after a place that was found, or past the leaves with a
/// pending insertion that stand there.
pub fn insert_at<C: Content + Drop, G: Ledger>(
    blocks: &mut LeafBlocks<C>,
    alloc: Global,
    found: &Found,
    past_pending: bool,
    content: C,
    ins: Stamp,
    props: &PropSet,
    steps: &mut Steps<G>,
) -> Result<(), OutOfMemory>
    requires usable { IsTrue blocks.old.usable }
    requires held { IsInLeaf C.units blocks.old.leaves found.now.leaf found.now.offset }
    requires fits { length (elements C.units C.by blocks.old.leaves) + length (C.units content) < 2 ^ 64 }

    // The place is that of p seen elements.
    ensures list { (view : LenView) (p : ℕ) → held_place C.units C.by blocks.old.leaves found.now.leaf found.now.offset
        ≡ place (seen_in view) p (elements C.units C.by blocks.old.leaves)
        → OnOk result (elements C.units C.by blocks.new.leaves
        ≡ put (seen_in view) (passes past_pending) p (new_elements ins (C.by content) (apply [] props.now) (C.units content)) (elements C.units C.by blocks.old.leaves)) }
    ensures count { OnOk result (length (elements C.units C.by blocks.new.leaves) ≡ length (elements C.units C.by blocks.old.leaves) + length (C.units content)) }
    ensures nodes { OnOk result (Extends (ids blocks.old.leaves) (ids blocks.new.leaves)) }
    ensures refs { let old = elements C.units C.by blocks.old.leaves in
        (view : LenView) (p : ℕ) → held_place C.units C.by blocks.old.leaves found.now.leaf found.now.offset ≡ place (seen_in view) p old
        → OnOk result (ChangesReferences (with_place (shifted_place (put_place (seen_in view) (passes past_pending) p old) (length (C.units content))))
        blocks.old.refs blocks.new.refs) }
    ensures usable { OnOk result (blocks.new.usable ≡ true) }
    ensures floor { blocks.new.floor ≡ blocks.old.floor }
    ensures reads { steps.new ≤ steps.old + pending_leaves blocks.old.leaves + 1 }
    ensures no_reads { past_pending ≡ false → steps.new ≡ steps.old }
{
    let at = cut_at(blocks, found)?;
    // What holds of the leaves at any time is read off its contract.
    let _first = blocks.first();
    let leaf = new_leaf(alloc, content, ins, props)?;
    put_past(blocks, at, past_pending, leaf, steps)?;
    Ok(())
}
