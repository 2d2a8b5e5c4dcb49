//! Steps on leaves in blocks that keep the references on them right, and the lists of what each pending stage touched.

ghost use Rattle.std.specs.Prelude.{[], ◌≡◌, ◌≢◌, ℕ, ◌+◌, ◌<◌, ◌^◌, ◌≤◌, IfOk, IfSome, IsSomeAnd, IsTrue, None, OnOk, Some, false, length, option_map, true};
ghost use Rattle.ft_block.specs.Leaves.{IsLeafIn, IsPlaceIn, change_leaf, join_leaf, length_by, move_leaf, value_at, without_leaf};
ghost use Rattle.ft_tree_leaves.specs.BlockChanges.{MayChange, changed_leaf};
ghost use Rattle.ft_tree_leaves.specs.Edits.{ChangesReference, IsFreeOf, closed_by, moved_by, up_to_place, with_place};
ghost use Rattle.ft_tree_leaves.specs.LeafLists.{elements};
ghost use Rattle.ft_tree_leaves.specs.Places.{shifted_place};
ghost use Rattle.ft_tree_leaves.specs.References.{ChangesReferences, IsReferenceIn, KeepsReferences, reference_place, reference_at, slid_reference};
ghost use Rattle.ft_tree_blocks.specs.Anchors.{references_on};
ghost use Rattle.ft_tree_blocks.specs.LeafPlaces.{IsOnLeaf, place_on};
ghost use Rattle.ft_tree_blocks.specs.NewLeaves.{CanJoin, CutsLeaf, PutsLeaf};
ghost use Rattle.ft_tree_blocks.specs.Touched.{Tracks};
ghost use Rattle.ft_tree_blocks.specs.Unsettled.{IsSoundOn};

use crate::leaf_refs::LeafRefs;
use crate::reads;
use crate::slides::{slid_on, slide_leaves, unremoved};
use crate::stage_nodes::StageNodes;
use crate::touched::{note_stamps, purge};
use crate::tracked::{note_change, note_new, note_rear};
use ft_arena::NodeId;
use ft_base::moved::after;
use ft_base::{Element, OutOfMemory};
use ft_block::Blocks;
use ft_refs::{Place, RefId};
use ft_tree_leaves::leaves::Standing;
use ft_tree_leaves::{Content, LeafChange, TreeLeaf};
use std::collections::VecDeque;

/// Puts a new leaf in, as `Blocks::insert_after` does. Nothing is pending in its properties. References go with their
/// elements.
pub(crate) fn insert_anchored<C: Content + Drop>(
    blocks: &mut Blocks<TreeLeaf<C>>,
    touched: &mut VecDeque<StageNodes>,
    refs: &mut LeafRefs,
    at: Option<NodeId>,
    leaf: TreeLeaf<C>,
) -> Result<NodeId, OutOfMemory>
    requires usable { IsTrue blocks.old.usable }
    requires tracks { Tracks blocks.old.leaves touched.old.items }
    requires sound { IsSoundOn C.units blocks.old.leaves refs.old.anchors refs.old.unsettled.items }
    requires place { IsPlaceIn blocks.old.leaves at }
    requires fits { length_by (λ x. length (C.units x.content)) blocks.old.leaves + length (C.units leaf.content) < 2 ^ 64 }
    requires settled { leaf.overlay.pending ≡ [] }
    ensures puts { IfOk result (λ id. PutsLeaf at leaf blocks.old.leaves blocks.new.leaves id) }
    ensures tracks { OnOk result (Tracks blocks.new.leaves touched.new.items) }
    ensures refs { let i = length (elements C.units C.by (up_to_place blocks.old.leaves at)) in
        OnOk result (ChangesReferences (with_place (shifted_place i (length (C.units leaf.content))))
        (references_on C.units C.by blocks.old.leaves refs.old.anchors) (references_on C.units C.by blocks.new.leaves refs.new.anchors)) }
    ensures sound { OnOk result (IsSoundOn C.units blocks.new.leaves refs.new.anchors refs.new.unsettled.items) }
    ensures usable { OnOk result (blocks.new.usable ≡ true) }
    ensures floor { blocks.new.floor ≡ blocks.old.floor }
{
    // What holds of the leaves at any time is read off its contract.
    let _first = reads::first(blocks);
    let id = blocks.insert_after(at, leaf)?;
    note_new(touched, &reads::leaf(blocks, id).stamps, id)?;
    refs.hold(id)?;
    Ok(id)
}

/// Cuts a leaf in two, as `Blocks::split` does. References stay on their elements.
pub(crate) fn split_anchored<C: Content>(
    blocks: &mut Blocks<TreeLeaf<C>>,
    touched: &mut VecDeque<StageNodes>,
    refs: &mut LeafRefs,
    leaf: NodeId,
    at: u64,
) -> Result<NodeId, OutOfMemory>
    requires usable { IsTrue blocks.old.usable }
    requires tracks { Tracks blocks.old.leaves touched.old.items }
    requires sound { IsSoundOn C.units blocks.old.leaves refs.old.anchors refs.old.unsettled.items }
    requires low { 1 ≤ at }
    requires high { IsSomeAnd (value_at blocks.old.leaves leaf) (λ v. at < length (C.units v.content)) }
    ensures cuts { IfOk result (λ id. CutsLeaf C.front C.rear leaf at blocks.old.leaves blocks.new.leaves id) }
    ensures tracks { OnOk result (Tracks blocks.new.leaves touched.new.items) }
    ensures refs { OnOk result
        (KeepsReferences (references_on C.units C.by blocks.old.leaves refs.old.anchors)
        (references_on C.units C.by blocks.new.leaves refs.new.anchors)) }
    ensures sound { OnOk result (IsSoundOn C.units blocks.new.leaves refs.new.anchors refs.new.unsettled.items) }
    ensures usable { OnOk result (blocks.new.usable ≡ true) }
    ensures floor { blocks.new.floor ≡ blocks.old.floor }
{
    // What holds of the leaves at any time is read off its contract.
    let _first = reads::first(blocks);
    let stands = reads::leaf(blocks, leaf).stands(Standing::Unremoved);
    let rear = blocks.split(leaf, at)?;
    note_rear(touched, reads::leaf(blocks, rear), leaf, rear)?;
    refs.cut(leaf, at, rear, stands)?;
    Ok(rear)
}

/// Replaces the stamps of a leaf, as `Blocks::set_stamps` does. References stay on their elements; acknowledged ones
/// may have to slide then.
pub(crate) fn set_stamps_anchored<C: Content>(
    blocks: &mut Blocks<TreeLeaf<C>>,
    touched: &mut VecDeque<StageNodes>,
    refs: &mut LeafRefs,
    id: NodeId,
    e: Element,
) -> Result<(), OutOfMemory>
    requires usable { IsTrue blocks.old.usable }
    requires tracks { Tracks blocks.old.leaves touched.old.items }
    requires sound { IsSoundOn C.units blocks.old.leaves refs.old.anchors refs.old.unsettled.items }
    requires live { IsLeafIn blocks.old.leaves id }
    ensures ok { OnOk result (blocks.new.leaves ≡ change_leaf (λ v. record v { stamps = e }) blocks.old.leaves id) }
    ensures tracks { OnOk result (Tracks blocks.new.leaves touched.new.items) }
    ensures refs { OnOk result
        (KeepsReferences (references_on C.units C.by blocks.old.leaves refs.old.anchors)
        (references_on C.units C.by blocks.new.leaves refs.new.anchors)) }
    ensures sound { OnOk result (IsSoundOn C.units blocks.new.leaves refs.new.anchors refs.new.unsettled.items) }
    ensures usable { OnOk result (blocks.new.usable ≡ true) }
    ensures floor { blocks.new.floor ≡ blocks.old.floor }
{
    // What holds of the leaves at any time is read off its contract.
    let _first = reads::first(blocks);
    let noted = note_stamps(touched, &reads::leaf(blocks, id).stamps, &e, id);
    let stamps = after(noted, e)?;
    blocks.set_stamps(id, stamps)?;
    let stands = reads::leaf(blocks, id).stands(Standing::Unremoved);
    refs.unsettle(id, stands)
}

/// Joins the next leaf to a leaf, as `Blocks::join_next` does. References stay on their elements.
pub(crate) fn join_anchored<C: Content + Drop>(
    blocks: &mut Blocks<TreeLeaf<C>>,
    touched: &mut VecDeque<StageNodes>,
    refs: &mut LeafRefs,
    id: NodeId,
) -> Result<(), OutOfMemory>
    requires usable { IsTrue blocks.old.usable }
    requires tracks { Tracks blocks.old.leaves touched.old.items }
    requires sound { IsSoundOn C.units blocks.old.leaves refs.old.anchors refs.old.unsettled.items }
    requires can { CanJoin C.joins blocks.old.leaves id }
    ensures ok { OnOk result (blocks.new.leaves ≡ join_leaf (λ v w. record v { content = C.joined v.content w.content }) blocks.old.leaves id) }
    ensures tracks { OnOk result (Tracks blocks.new.leaves touched.new.items) }
    ensures refs { OnOk result
        (KeepsReferences (references_on C.units C.by blocks.old.leaves refs.old.anchors)
        (references_on C.units C.by blocks.new.leaves refs.new.anchors)) }
    ensures sound { OnOk result (IsSoundOn C.units blocks.new.leaves refs.new.anchors refs.new.unsettled.items) }
    ensures usable { OnOk result (blocks.new.usable ≡ true) }
    ensures floor { blocks.new.floor ≡ blocks.old.floor }
{
    // What holds of the leaves at any time is read off its contract.
    let _first = reads::first(blocks);
    let leaf = reads::leaf(blocks, id);
    let count = leaf.content.len();
    let stands = leaf.stands(Standing::Unremoved);
    let Some(next) = reads::next(blocks, id) else {
        unreachable!();
    };
    // That there is a leaf is read off its contract.
    let _next = reads::leaf(blocks, next);
    purge(touched, next);
    blocks.join_next(id)?;
    refs.join(next, id, count, stands)
}

/// Makes a change of a leaf, as `Blocks::change` does. References stay on their elements.
pub(crate) fn change_anchored<C: Content>(
    blocks: &mut Blocks<TreeLeaf<C>>,
    touched: &mut VecDeque<StageNodes>,
    _refs: &LeafRefs,
    id: NodeId,
    c: &LeafChange,
) -> Result<(), OutOfMemory>
    requires usable { IsTrue blocks.old.usable }
    requires tracks { Tracks blocks.old.leaves touched.old.items }
    requires sound { IsSoundOn C.units blocks.old.leaves _refs.now.anchors _refs.now.unsettled.items }
    requires can { IsSomeAnd (value_at blocks.old.leaves id) (λ v. MayChange c.now v.overlay) }
    ensures ok { OnOk result (blocks.new.leaves ≡ change_leaf (λ v. changed_leaf C.stamped v c.now) blocks.old.leaves id) }
    ensures tracks { OnOk result (Tracks blocks.new.leaves touched.new.items) }
    ensures refs { OnOk result
        (KeepsReferences (references_on C.units C.by blocks.old.leaves _refs.now.anchors)
        (references_on C.units C.by blocks.new.leaves _refs.now.anchors)) }
    ensures sound { OnOk result (IsSoundOn C.units blocks.new.leaves _refs.now.anchors _refs.now.unsettled.items) }
    ensures usable { OnOk result (blocks.new.usable ≡ true) }
    ensures floor { blocks.new.floor ≡ blocks.old.floor }
{
    // What holds of the leaves at any time is read off its contract.
    let _first = reads::first(blocks);
    note_change(touched, c, id)?;
    blocks.change(id, c)
}

/// Takes a leaf out on which no reference is, as `Blocks::take` does. References go with their elements.
pub(crate) fn take_anchored<C: Content>(
    blocks: &mut Blocks<TreeLeaf<C>>,
    touched: &mut VecDeque<StageNodes>,
    _refs: &LeafRefs,
    id: NodeId,
) -> Result<TreeLeaf<C>, OutOfMemory>
    requires usable { IsTrue blocks.old.usable }
    requires tracks { Tracks blocks.old.leaves touched.old.items }
    requires sound { IsSoundOn C.units blocks.old.leaves _refs.now.anchors _refs.now.unsettled.items }
    requires live { IsLeafIn blocks.old.leaves id }
    requires free { IsFreeOf C.units C.by blocks.old.leaves id (references_on C.units C.by blocks.old.leaves _refs.now.anchors) }
    ensures value { IfOk result (λ v. value_at blocks.old.leaves id ≡ Some v) }
    ensures ok { OnOk result (blocks.new.leaves ≡ without_leaf blocks.old.leaves id) }
    ensures tracks { OnOk result (Tracks blocks.new.leaves touched.new.items) }
    ensures refs { OnOk result (ChangesReferences (with_place (closed_by C.units C.by blocks.old.leaves id))
        (references_on C.units C.by blocks.old.leaves _refs.now.anchors) (references_on C.units C.by blocks.new.leaves _refs.now.anchors)) }
    ensures sound { OnOk result (IsSoundOn C.units blocks.new.leaves _refs.now.anchors _refs.now.unsettled.items) }
    ensures usable { OnOk result (blocks.new.usable ≡ true) }
    ensures floor { blocks.new.floor ≡ blocks.old.floor }
{
    // What holds of the leaves at any time is read off its contract.
    let _first = reads::first(blocks);
    purge(touched, id);
    blocks.take(id)
}

/// Moves a leaf, as `Blocks::move_after` does. References go with their elements.
pub(crate) fn move_anchored<C: Content>(
    blocks: &mut Blocks<TreeLeaf<C>>,
    touched: &VecDeque<StageNodes>,
    _refs: &LeafRefs,
    id: NodeId,
    at: Option<NodeId>,
) -> Result<(), OutOfMemory>
    requires usable { IsTrue blocks.old.usable }
    requires tracks { Tracks blocks.old.leaves touched.now.items }
    requires sound { IsSoundOn C.units blocks.old.leaves _refs.now.anchors _refs.now.unsettled.items }
    requires live { IsLeafIn blocks.old.leaves id }
    requires place { IsPlaceIn blocks.old.leaves at }
    requires differ { at ≢ Some id }
    ensures ok { OnOk result (blocks.new.leaves ≡ move_leaf blocks.old.leaves id at (value_at blocks.old.leaves id)) }
    ensures tracks { OnOk result (Tracks blocks.new.leaves touched.now.items) }
    ensures refs { OnOk result (ChangesReferences (with_place (moved_by C.units C.by blocks.old.leaves id at))
        (references_on C.units C.by blocks.old.leaves _refs.now.anchors) (references_on C.units C.by blocks.new.leaves _refs.now.anchors)) }
    ensures sound { OnOk result (IsSoundOn C.units blocks.new.leaves _refs.now.anchors _refs.now.unsettled.items) }
    ensures usable { OnOk result (blocks.new.usable ≡ true) }
    ensures floor { blocks.new.floor ≡ blocks.old.floor }
{
    // What holds of the leaves at any time is read off its contract.
    let _first = reads::first(blocks);
    blocks.move_after(id, at)
}

/// Puts a new pending reference on an element.
pub(crate) fn add_anchored<C: Content>(
    blocks: &Blocks<TreeLeaf<C>>,
    refs: &mut LeafRefs,
    at: &Place,
) -> Result<RefId, OutOfMemory>
    requires usable { IsTrue blocks.now.usable }
    requires sound { IsSoundOn C.units blocks.now.leaves refs.old.anchors refs.old.unsettled.items }
    requires on { IsOnLeaf C.units blocks.now.leaves at.now }
    ensures fresh { IfOk result (λ r. reference_at (references_on C.units C.by blocks.now.leaves refs.old.anchors) r ≡ None) }
    ensures added { let leaves = blocks.now.leaves in
        IfOk result (λ r. reference_at (references_on C.units C.by leaves refs.new.anchors) r
        ≡ Some record { place = Some (place_on C.units C.by leaves at.now); acked = false }) }
    ensures others { let leaves = blocks.now.leaves in
        IfOk result (λ r. (x : ℕ) → x ≢ r → reference_at (references_on C.units C.by leaves refs.new.anchors) x
        ≡ reference_at (references_on C.units C.by leaves refs.old.anchors) x) }
    ensures sound { OnOk result (IsSoundOn C.units blocks.now.leaves refs.new.anchors refs.new.unsettled.items) }
{
    // What holds of the leaves at any time is read off its contract.
    let _first = reads::first(blocks);
    let r = refs.anchors.add(at.owner, at.offset)?;
    Ok(r)
}

/// Where a reference stands: None exactly where it is detached.
pub(crate) fn place_anchored<C: Content>(
    blocks: &Blocks<TreeLeaf<C>>,
    refs: &LeafRefs,
    r: RefId,
) -> Option<Place>
    requires usable { IsTrue blocks.now.usable }
    requires sound { IsSoundOn C.units blocks.now.leaves refs.now.anchors refs.now.unsettled.items }
    requires live { IsReferenceIn (references_on C.units C.by blocks.now.leaves refs.now.anchors) r }
    ensures on { IfSome result (IsOnLeaf C.units blocks.now.leaves) }
    ensures place { let leaves = blocks.now.leaves in
        option_map (place_on C.units C.by leaves) result ≡ reference_place (references_on C.units C.by leaves refs.now.anchors) r }
{
    // What holds of the leaves at any time is read off its contract.
    let _first = reads::first(blocks);
    refs.anchors.place(r)
}

/// Makes a reference acknowledged, and slides it.
pub(crate) fn settle_anchored<C: Content>(
    blocks: &Blocks<TreeLeaf<C>>,
    touched: &VecDeque<StageNodes>,
    refs: &mut LeafRefs,
    r: RefId,
)
    requires usable { IsTrue blocks.now.usable }
    requires tracks { Tracks blocks.now.leaves touched.now.items }
    requires sound { IsSoundOn C.units blocks.now.leaves refs.old.anchors refs.old.unsettled.items }
    requires live { IsReferenceIn (references_on C.units C.by blocks.now.leaves refs.old.anchors) r }
    ensures refs { let leaves = blocks.now.leaves in
        ChangesReference r (λ x. Some (slid_reference (elements C.units C.by leaves) (record x { acked = true })))
        (references_on C.units C.by leaves refs.old.anchors) (references_on C.units C.by leaves refs.new.anchors) }
    ensures sound { IsSoundOn C.units blocks.now.leaves refs.new.anchors refs.new.unsettled.items }
{
    // What holds of the leaves at any time is read off its contract.
    let _first = reads::first(blocks);
    refs.anchors.acknowledge(r);
    let Some(place) = refs.anchors.place(r) else {
        return;
    };
    match slid_on(blocks, &place, unremoved(blocks, touched)) {
        Some(to) => refs.anchors.put(r, to.owner, to.offset),
        None => refs.anchors.detach(r),
    }
}

/// Ends a reference.
pub(crate) fn drop_anchored<C: Content>(blocks: &Blocks<TreeLeaf<C>>, refs: &mut LeafRefs, r: RefId)
    requires usable { IsTrue blocks.now.usable }
    requires sound { IsSoundOn C.units blocks.now.leaves refs.old.anchors refs.old.unsettled.items }
    requires live { IsReferenceIn (references_on C.units C.by blocks.now.leaves refs.old.anchors) r }
    ensures refs { let leaves = blocks.now.leaves in
        ChangesReference r (λ x. None) (references_on C.units C.by leaves refs.old.anchors) (references_on C.units C.by leaves refs.new.anchors) }
    ensures sound { IsSoundOn C.units blocks.now.leaves refs.new.anchors refs.new.unsettled.items }
{
    // What holds of the leaves at any time is read off its contract.
    let _first = reads::first(blocks);
    refs.anchors.release(r);
}

/// Lets all acknowledged references slide after sequenced removals, by going to those leaves on which they may
/// have to.
pub(crate) fn slide_anchored<C: Content>(
    blocks: &Blocks<TreeLeaf<C>>,
    touched: &VecDeque<StageNodes>,
    refs: &mut LeafRefs,
)
    requires usable { IsTrue blocks.now.usable }
    requires tracks { Tracks blocks.now.leaves touched.now.items }
    requires sound { IsSoundOn C.units blocks.now.leaves refs.old.anchors refs.old.unsettled.items }
    ensures refs { let leaves = blocks.now.leaves in
        ChangesReferences (slid_reference (elements C.units C.by leaves))
        (references_on C.units C.by leaves refs.old.anchors) (references_on C.units C.by leaves refs.new.anchors) }
    ensures sound { IsSoundOn C.units blocks.now.leaves refs.new.anchors refs.new.unsettled.items }
    ensures settled { refs.new.unsettled.items ≡ [] }
{
    let test = unremoved(blocks, touched);
    slide_leaves(blocks, &mut refs.anchors, refs.unsettled.as_slice(), test);
    refs.unsettled.clear();
}
