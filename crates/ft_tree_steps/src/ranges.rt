//! Leaves in blocks: how a range of their elements is changed.

ghost use Rattle.std.specs.Prelude.{◌≡◌, ℕ, ◌+◌, ◌-◌, ◌≤◌, All, IfOk, IsTrue, IsSomeAnd, OnOk, Some, true};
ghost use Rattle.ft_arena.specs.Ids.{after};
ghost use Rattle.ft_base.specs.Scan.{change_range, place};
ghost use Rattle.ft_block.specs.Leaves.{IsLeafIn, IsPlaceIn, change_leaf, ids, value_at};
ghost use Rattle.ft_tree_steps.specs.RangeEdits.{MayEdit, edited_leaf};
ghost use Rattle.ft_tree_leaves.specs.Elements.{TreeElement, seen_in};
ghost use Rattle.ft_tree_leaves.specs.LeafLists.{Extends, elements};
ghost use Rattle.ft_tree_leaves.specs.LeafChanges.{changed_in};
ghost use Rattle.ft_tree_leaves.specs.References.{KeepsReferences};
ghost use Rattle.ft_tree_steps.specs.LeafSteps.{Acts, CutsSeen, GoesBehind, IsInLeaf, changed_behind, held_place};
ghost use Rattle.ft_tree_blocks.specs.Skips.{Skips};
ghost use Rattle.ft_tree_blocks.specs.Walks.{from_leaf, from_place};

use crate::cuts::{cut_at, leaf_behind};
use ft_arena::NodeId;
use ft_base::{OutOfMemory, Stamp};
use ft_block::{Blocks, Found, LenView};
use ft_tree_blocks::LeafBlocks;
use ft_tree_blocks::settling::next_standing;
use ft_tree_leaves::block_leaf::removed_stamps;
use ft_tree_leaves::leaves::Standing;
use ft_tree_leaves::{Content, LeafChange, TreeLeaf};
use std::alloc::Global;

/// What a call makes of each leaf of a range that the view sees.
#[derive(Drop)]
pub enum RangeEdit {
    /// It gets one more removal.
    Remove(Stamp),
    /// Its properties change.
    Change(LeafChange),
}

// Makes the edit of the leaf of a node, if the view sees it.
fn edit_seen<C: Content>(
    blocks: &mut LeafBlocks<C>,
    alloc: Global,
    id: NodeId,
    view: LenView,
    edit: &RangeEdit,
) -> Result<(), OutOfMemory>
    requires usable { IsTrue blocks.old.usable }
    requires live { IsLeafIn blocks.old.leaves id }
    requires may { IsSomeAnd (value_at blocks.old.leaves id) (λ v. MayEdit edit.now v.overlay) }
    ensures leaves { OnOk result (blocks.new.leaves ≡ change_leaf (changed_in view (edited_leaf C.stamped edit.now)) blocks.old.leaves id) }
    ensures refs { OnOk result (KeepsReferences blocks.old.refs blocks.new.refs) }
    ensures usable { OnOk result (blocks.new.usable ≡ true) }
    ensures floor { blocks.new.floor ≡ blocks.old.floor }
{
    // What holds of the leaves at any time is read off its contract.
    let _first = blocks.first();
    let leaf = blocks.leaf(id);
    if !leaf.is_seen_in(view) {
        return Ok(());
    }
    match edit {
        RangeEdit::Remove(t) => {
            let e = removed_stamps(alloc, &leaf.stamps, *t)?;
            blocks.set_stamps(id, e)
        }
        RangeEdit::Change(c) => blocks.change(id, c),
    }
}

// Cuts the leaf of a node behind the first `left` elements that the view sees, if it sees more of it, and
// returns how many it sees of the leaf then.
fn cut_seen<C: Content>(
    blocks: &mut LeafBlocks<C>,
    id: NodeId,
    left: u64,
    view: LenView,
) -> Result<u64, OutOfMemory>
    requires usable { IsTrue blocks.old.usable }
    requires live { IsLeafIn blocks.old.leaves id }
    requires some { 1 ≤ left }
    ensures cut { IfOk result (λ n. CutsSeen C.units C.by (seen_in view) left n blocks.old.leaves blocks.new.leaves id) }
    ensures refs { OnOk result (KeepsReferences blocks.old.refs blocks.new.refs) }
    ensures usable { OnOk result (blocks.new.usable ≡ true) }
    ensures floor { blocks.new.floor ≡ blocks.old.floor }
{
    // What holds of the leaves at any time is read off its contract.
    let _first = blocks.first();
    let n = blocks.leaf(id).seen_len(view);
    if n <= left {
        return Ok(n);
    }
    let _rear = blocks.split(id, left)?;
    Ok(left)
}

// Makes the edit of the leaf of a node up to the first `left` elements that the view sees, and returns how
// many these were.
fn edit_first<C: Content>(
    blocks: &mut LeafBlocks<C>,
    alloc: Global,
    id: NodeId,
    left: u64,
    view: LenView,
    edit: &RangeEdit,
) -> Result<u64, OutOfMemory>
    requires usable { IsTrue blocks.old.usable }
    requires live { IsLeafIn blocks.old.leaves id }
    requires some { 1 ≤ left }
    requires may { All (λ e. MayEdit edit.now e.overlay) (elements C.units C.by (from_leaf blocks.old.leaves id)) }
    ensures list { (f : TreeElement C.Unit → TreeElement C.Unit) → Acts C.units C.by (edited_leaf C.stamped edit.now) f
        → IfOk result (λ n. changed_behind C.units C.by (seen_in view) f blocks.new.leaves (after (ids blocks.new.leaves) id) (left - n)
        ≡ changed_behind C.units C.by (seen_in view) f blocks.old.leaves (Some id) left) }
    ensures few { IfOk result (λ n. n ≤ left) }
    ensures goes { OnOk result (GoesBehind C.units C.by blocks.old.leaves blocks.new.leaves id) }
    ensures refs { OnOk result (KeepsReferences blocks.old.refs blocks.new.refs) }
    ensures usable { OnOk result (blocks.new.usable ≡ true) }
    ensures floor { blocks.new.floor ≡ blocks.old.floor }
{
    let n = cut_seen(blocks, id, left, view)?;
    // What holds of the leaves at any time is read off its contract.
    let _first = blocks.first();
    let _len = blocks.leaf(id).content.len();
    edit_seen(blocks, alloc, id, view, edit)?;
    Ok(n)
}

// The leaf with which a range goes on behind that of a node, of which the view sees `n` elements: the next one, or, where these are none,
// the next one that the view sees.
fn leaf_to_edit<C: Content>(
    blocks: &LeafBlocks<C>,
    id: NodeId,
    n: u64,
    view: LenView,
) -> Option<NodeId>
    requires usable { IsTrue blocks.now.usable }
    requires live { IsLeafIn blocks.now.leaves id }
    ensures live { IsPlaceIn blocks.now.leaves result }
    ensures skips { Skips C.units C.by (seen_in view) blocks.now.leaves (after (ids blocks.now.leaves) id) result }
{
    let next = blocks.next(id);
    if n == 0 {
        return next_standing(blocks.list(), next, Standing::SeenIn(view));
    }
    next
}

/// Makes the edit of the first `count` elements that the view sees from the leaf of a node on. Behind a leaf that the view doesn't see it
/// goes on at the next one that it sees, which is found as `next_standing` does.
pub fn edit_range<C: Content>(
    blocks: &mut LeafBlocks<C>,
    alloc: Global,
    start: Option<NodeId>,
    count: u64,
    view: LenView,
    edit: &RangeEdit,
) -> Result<(), OutOfMemory>
    requires usable { IsTrue blocks.old.usable }
    requires place { IsPlaceIn blocks.old.leaves start }
    requires may { All (λ e. MayEdit edit.now e.overlay) (elements C.units C.by (from_place blocks.old.leaves start)) }
    ensures list { (f : TreeElement C.Unit → TreeElement C.Unit) → Acts C.units C.by (edited_leaf C.stamped edit.now) f
        → OnOk result (elements C.units C.by blocks.new.leaves ≡ changed_behind C.units C.by (seen_in view) f blocks.old.leaves start count) }
    ensures nodes { OnOk result (Extends (ids blocks.old.leaves) (ids blocks.new.leaves)) }
    ensures refs { OnOk result (KeepsReferences blocks.old.refs blocks.new.refs) }
    ensures usable { OnOk result (blocks.new.usable ≡ true) }
    ensures floor { blocks.new.floor ≡ blocks.old.floor }
{
    let mut at = start;
    let mut left = count;
    while let Some(id) = at {
        if left == 0 {
            return Ok(());
        }
        let n = edit_first(blocks, alloc, id, left, view, edit)?;
        left -= n;
        at = leaf_to_edit(blocks, id, n, view);
    }
    Ok(())
}

/// Makes the edit of the first `count` elements that the view sees behind a place that was found.
pub fn edit_behind<C: Content>(
    blocks: &mut LeafBlocks<C>,
    alloc: Global,
    found: &Found,
    count: u64,
    view: LenView,
    edit: &RangeEdit,
) -> Result<(), OutOfMemory>
    requires usable { IsTrue blocks.old.usable }
    requires held { IsInLeaf C.units blocks.old.leaves found.now.leaf found.now.offset }
    requires may { All (λ e. MayEdit edit.now e.overlay) (elements C.units C.by blocks.old.leaves) }

    // The place is that of p seen elements.
    ensures list { (p : ℕ) (f : TreeElement C.Unit → TreeElement C.Unit) → Acts C.units C.by (edited_leaf C.stamped edit.now) f
        → held_place C.units C.by blocks.old.leaves found.now.leaf found.now.offset ≡ place (seen_in view) p (elements C.units C.by blocks.old.leaves)
        → OnOk result (elements C.units C.by blocks.new.leaves ≡ change_range (seen_in view) p (p + count) f (elements C.units C.by blocks.old.leaves)) }
    ensures nodes { OnOk result (Extends (ids blocks.old.leaves) (ids blocks.new.leaves)) }
    ensures refs { OnOk result (KeepsReferences blocks.old.refs blocks.new.refs) }
    ensures usable { OnOk result (blocks.new.usable ≡ true) }
    ensures floor { blocks.new.floor ≡ blocks.old.floor }
{
    let at = cut_at(blocks, found)?;
    // What holds of the leaves at any time is read off its contract.
    let _first = blocks.first();
    let start = leaf_behind(blocks.list(), at);
    edit_range(blocks, alloc, start, count, view, edit)?;
    Ok(())
}
