//! Leaves in blocks, with the lists of what each pending stage touched.

ghost use Rattle.std.specs.Prelude.{[], ◌≡◌, ◌≢◌, ◌+◌, ◌<◌, ◌^◌, ℕ, ◌≤◌, All, IfOk, IfSome, IsSomeAnd, IsTrue, None, OnErr, OnOk, Some, false, length, map, option_map, true};
ghost use Rattle.ft_arena.specs.Ids.{after, first};
ghost use Rattle.ft_block.specs.Leaves.{
  IsFromFloor,
  IsLeafIn,
  IsPlaceIn,
  change_leaf,
  ids,
  join_leaf,
  left_of,
  length_by,
  move_leaf,
  put_leaf,
  split_leaf,
  times_leaf,
  value_after,
  value_at,
  without_leaf,
};
ghost use Rattle.ft_tree_leaves.specs.BlockChanges.{MayChange, changed_leaf};
ghost use Rattle.ft_tree_leaves.specs.Edits.{ChangesReference, IsFreeOf, closed_by, moved_by, next_pending_above, next_removal_above, touched_nodes, up_to_place, with_place};
ghost use Rattle.ft_tree_leaves.specs.Elements.{IsLowestChange};
ghost use Rattle.ft_tree_leaves.specs.LeafChanges.{acked_pair};
ghost use Rattle.ft_tree_leaves.specs.LeafLists.{elements, leaf_length};
ghost use Rattle.ft_tree_leaves.specs.Places.{shifted_place};
ghost use Rattle.ft_tree_leaves.specs.References.{ChangesReferences, IsReferenceIn, KeepsReferences, reference_place, reference_at, slid_reference};
ghost use Rattle.ft_tree_blocks.specs.LeafPlaces.{IsOnLeaf, place_on};
ghost use Rattle.ft_tree_blocks.specs.State.{list_of};

use crate::acks::ack_in;
use crate::anchored::{
    add_anchored, change_anchored, drop_anchored, insert_anchored, join_anchored, move_anchored,
    place_anchored, set_stamps_anchored, settle_anchored, slide_anchored, split_anchored,
    take_anchored,
};
use crate::leaf_refs::LeafRefs;
use crate::next_stages::{Wanted, next_wanted_in};
use crate::pruning::prune_in;
use crate::reads;
use crate::stage_leaves::stage_leaves_in;
use crate::stage_nodes::StageNodes;
use ft_arena::NodeId;
use ft_base::{Element, OutOfMemory};
use ft_block::{Blocks, LenView};
use ft_refs::{Place, RefId};
use ft_tree_leaves::{Content, LeafChange, TreeLeaf};
use std::alloc::Global;
use std::collections::VecDeque;
use std::marker::Model;

/// Leaves in blocks, and for each pending stage the nodes of the leaves that it touched, so that its
/// acknowledgement goes to these alone. A leaf that stands in the list of a stage may have nothing of it any
/// more, until `prune` takes it off. References to elements stand on their leaves. A contract sees the leaves from first to last, each with
/// its node, how deep a search goes, the floor, the references, each under its number, and whether they may still
/// be used: after `OutOfMemory` in a call that changes them they may not, for good.
#[derive(Drop)]
pub struct LeafBlocks<C: Content> {
    blocks: Blocks<TreeLeaf<C>>,
    touched: VecDeque<StageNodes>,
    refs: LeafRefs,
    usable: bool,
}

impl<C: Content> Model for LeafBlocks<C> {
    ghost use Rattle.ft_tree_blocks.specs.State.{TrackedLeaves};

    ghost Value = { TrackedLeaves C };

    ghost use Rattle.ft_tree_blocks.specs.Inside.{view_of, IsSoundIfUsable};

    ghost view = { view_of C.units C.by };

    ghost invariant = { IsSoundIfUsable C.units };
}

impl<C: Content> LeafBlocks<C> {
    /// No leaves, and no references.
    pub fn new(alloc: Global) -> LeafBlocks<C>
        ensures { result ≡ record { leaves = []; depth = 0; floor = 0; refs = []; usable = true } }
    {
        LeafBlocks {
            blocks: Blocks::new(alloc),
            touched: VecDeque::new(alloc),
            refs: LeafRefs::new(alloc),
            usable: true,
        }
    }

    /// The leaves in blocks, to be read.
    pub fn list(&self) -> &Blocks<TreeLeaf<C>>
        requires { IsTrue self.now.usable }
        ensures { result.now ≡ list_of self.now }
    {
        &self.blocks
    }

    /// The first leaf: None exactly where there is no leaf.
    pub fn first(&self) -> Option<NodeId>
        requires { IsTrue self.now.usable }
        ensures value { result ≡ first (ids self.now.leaves) }

        // What holds of the leaves at any time.
        ensures once { (id : ℕ) → times_leaf self.now.leaves id ≤ 1 }
        ensures some { All (λ x. 1 ≤ length (C.units x.1.content)) self.now.leaves }
        ensures few { length_by (λ x. length (C.units x.content)) self.now.leaves < 2 ^ 64 }
        ensures depth { 4 ^ self.now.depth ≤ length self.now.leaves + 1 }

        // And each reference stands on an element.
        ensures inside { (r j : ℕ) → reference_place self.now.refs r ≡ Some j → j < length (elements C.units C.by self.now.leaves) }
    {
        reads::first(&self.blocks)
    }

    /// The leaf after this one: None exactly where it is the last.
    pub fn next(&self, id: NodeId) -> Option<NodeId>
        requires usable { IsTrue self.now.usable }
        requires live { IsLeafIn self.now.leaves id }
        ensures { result ≡ after (ids self.now.leaves) id }
    {
        reads::next(&self.blocks, id)
    }

    /// The value of a leaf.
    pub fn leaf(&self, id: NodeId) -> &TreeLeaf<C>
        requires usable { IsTrue self.now.usable }
        requires live { IsLeafIn self.now.leaves id }
        ensures { value_at self.now.leaves id ≡ Some result.now }
    {
        reads::leaf(&self.blocks, id)
    }

    /// How many elements the view sees left of the leaf. The reference number of a perspective isn't below the
    /// floor.
    pub fn position_of(&self, leaf: NodeId, view: LenView) -> u64
        requires usable { IsTrue self.now.usable }
        requires floor { IsFromFloor self.now.floor view }
        requires live { IsLeafIn self.now.leaves leaf }
        ensures { result ≡ length_by (leaf_length C.units view) (left_of self.now.leaves leaf) }
    {
        self.blocks.position_of(leaf, view)
    }

    /// Puts a new leaf, in whose properties nothing is pending, directly after the given one, or first where
    /// none is given.
    ///
    /// Returns `OutOfMemory` where there is no room for it, and then the blocks may be used no more.
    pub fn insert_after(
        &mut self,
        at: Option<NodeId>,
        leaf: TreeLeaf<C>,
    ) -> Result<NodeId, OutOfMemory>
    where
        C: Drop,
        requires usable { IsTrue self.old.usable }
        requires place { IsPlaceIn self.old.leaves at }
        requires fits { length_by (λ x. length (C.units x.content)) self.old.leaves + length (C.units leaf.content) < 2 ^ 64 }
        requires settled { leaf.overlay.pending ≡ [] }
        ensures ok { IfOk result (λ id. self.new.leaves ≡ put_leaf self.old.leaves at (id, leaf)) }
        ensures fresh { IfOk result (λ id. times_leaf self.old.leaves id ≡ 0) }
        ensures refs { let i = length (elements C.units C.by (up_to_place self.old.leaves at)) in
            OnOk result (ChangesReferences (with_place (shifted_place i (length (C.units leaf.content)))) self.old.refs self.new.refs) }
        ensures usable { OnOk result (self.new.usable ≡ true) }
        ensures floor { self.new.floor ≡ self.old.floor }
        ensures err { OnErr result (self.new.usable ≡ false) }
    {
        match insert_anchored(
            &mut self.blocks,
            &mut self.touched,
            &mut self.refs,
            at,
            leaf,
        ) {
            Ok(id) => Ok(id),
            Err(e) => {
                self.usable = false;
                Err(e)
            }
        }
    }

    /// Cuts a leaf in two: its first `at` elements keep the node, the rest gets a new one directly after
    /// it, which is returned. Where something is pending on the leaf, the lists of all stages are looked
    /// through, since a leaf doesn't tell all stages of which it has something.
    ///
    /// Returns `OutOfMemory` where there is no room for it, and then the blocks may be used no more.
    pub fn split(&mut self, leaf: NodeId, at: u64) -> Result<NodeId, OutOfMemory>
        requires usable { IsTrue self.old.usable }
        requires low { 1 ≤ at }
        requires high { IsSomeAnd (value_at self.old.leaves leaf) (λ v. at < length (C.units v.content)) }
        ensures ok { IfOk result (λ id. self.new.leaves
            ≡ split_leaf (λ v. record v { content = C.front v.content at }) (λ v. record v { content = C.rear v.content at }) self.old.leaves leaf id) }
        ensures fresh { IfOk result (λ id. times_leaf self.old.leaves id ≡ 0) }
        ensures refs { OnOk result (KeepsReferences self.old.refs self.new.refs) }
        ensures usable { OnOk result (self.new.usable ≡ true) }
        ensures floor { self.new.floor ≡ self.old.floor }
        ensures err { OnErr result (self.new.usable ≡ false) }
    {
        match split_anchored(
            &mut self.blocks,
            &mut self.touched,
            &mut self.refs,
            leaf,
            at,
        ) {
            Ok(rear) => Ok(rear),
            Err(e) => {
                self.usable = false;
                Err(e)
            }
        }
    }

    /// Replaces the stamps of all elements of a leaf. No other leaf changes.
    ///
    /// Returns `OutOfMemory` where there is no room for it, and then the blocks may be used no more.
    pub fn set_stamps(&mut self, id: NodeId, e: Element) -> Result<(), OutOfMemory>
        requires usable { IsTrue self.old.usable }
        requires live { IsLeafIn self.old.leaves id }
        ensures ok { OnOk result (self.new.leaves ≡ change_leaf (λ v. record v { stamps = e }) self.old.leaves id) }
        ensures refs { OnOk result (KeepsReferences self.old.refs self.new.refs) }
        ensures usable { OnOk result (self.new.usable ≡ true) }
        ensures floor { self.new.floor ≡ self.old.floor }
        ensures err { OnErr result (self.new.usable ≡ false) }
    {
        match set_stamps_anchored(&mut self.blocks, &mut self.touched, &mut self.refs, id, e) {
            Ok(()) => Ok(()),
            Err(e) => {
                self.usable = false;
                Err(e)
            }
        }
    }

    /// Makes this change of all elements of a leaf. No other leaf changes.
    ///
    /// Returns `OutOfMemory` where there is no room for it, and then the blocks may be used no more.
    pub fn change(&mut self, id: NodeId, c: &LeafChange) -> Result<(), OutOfMemory>
        requires usable { IsTrue self.old.usable }
        requires can { IsSomeAnd (value_at self.old.leaves id) (λ v. MayChange c.now v.overlay) }
        ensures ok { OnOk result (self.new.leaves ≡ change_leaf (λ v. changed_leaf C.stamped v c.now) self.old.leaves id) }
        ensures refs { OnOk result (KeepsReferences self.old.refs self.new.refs) }
        ensures usable { OnOk result (self.new.usable ≡ true) }
        ensures floor { self.new.floor ≡ self.old.floor }
        ensures err { OnErr result (self.new.usable ≡ false) }
    {
        match change_anchored(&mut self.blocks, &mut self.touched, &self.refs, id, c) {
            Ok(()) => Ok(()),
            Err(e) => {
                self.usable = false;
                Err(e)
            }
        }
    }

    /// Takes a leaf out on which no reference is, and returns its value. No other leaf changes. The lists of all stages are looked
    /// through.
    ///
    /// Returns `OutOfMemory` where there is no room for what blocks keep, and then the blocks may be used
    /// no more.
    pub fn take(&mut self, id: NodeId) -> Result<TreeLeaf<C>, OutOfMemory>
        requires usable { IsTrue self.old.usable }
        requires live { IsLeafIn self.old.leaves id }
        requires free { IsFreeOf C.units C.by self.old.leaves id self.old.refs }
        ensures value { IfOk result (λ v. value_at self.old.leaves id ≡ Some v) }
        ensures ok { OnOk result (self.new.leaves ≡ without_leaf self.old.leaves id) }
        ensures refs { OnOk result (ChangesReferences (with_place (closed_by C.units C.by self.old.leaves id)) self.old.refs self.new.refs) }
        ensures usable { OnOk result (self.new.usable ≡ true) }
        ensures floor { self.new.floor ≡ self.old.floor }
        ensures err { OnErr result (self.new.usable ≡ false) }
    {
        match take_anchored(&mut self.blocks, &mut self.touched, &self.refs, id) {
            Ok(leaf) => Ok(leaf),
            Err(e) => {
                self.usable = false;
                Err(e)
            }
        }
    }

    /// Joins the next leaf's elements, which have the same stamps, to this leaf, and takes the next leaf
    /// out. No other leaf changes. The lists of all stages are looked through.
    ///
    /// Returns `OutOfMemory` where there is no room for them, and then the blocks may be used no more.
    pub fn join_next(&mut self, id: NodeId) -> Result<(), OutOfMemory>
    where
        C: Drop,
        requires usable { IsTrue self.old.usable }
        requires can { IsSomeAnd (value_at self.old.leaves id) (λ v.
            IsSomeAnd (value_after self.old.leaves id) (λ w. IsTrue (C.joins v.content w.content) × (v.stamps ≡ w.stamps))) }
        ensures ok { OnOk result (self.new.leaves ≡ join_leaf (λ v w. record v { content = C.joined v.content w.content }) self.old.leaves id) }
        ensures refs { OnOk result (KeepsReferences self.old.refs self.new.refs) }
        ensures usable { OnOk result (self.new.usable ≡ true) }
        ensures floor { self.new.floor ≡ self.old.floor }
        ensures err { OnErr result (self.new.usable ≡ false) }
    {
        match join_anchored(&mut self.blocks, &mut self.touched, &mut self.refs, id) {
            Ok(()) => Ok(()),
            Err(e) => {
                self.usable = false;
                Err(e)
            }
        }
    }

    /// Moves a leaf directly after the given one, or first where none is given. It keeps its node, and
    /// all other leaves keep theirs and their order.
    ///
    /// Returns `OutOfMemory` where there is no room for what blocks keep, and then the blocks may be used
    /// no more.
    pub fn move_after(&mut self, id: NodeId, at: Option<NodeId>) -> Result<(), OutOfMemory>
        requires usable { IsTrue self.old.usable }
        requires live { IsLeafIn self.old.leaves id }
        requires place { IsPlaceIn self.old.leaves at }
        requires differ { at ≢ Some id }
        ensures ok { OnOk result (self.new.leaves ≡ move_leaf self.old.leaves id at (value_at self.old.leaves id)) }
        ensures refs { OnOk result (ChangesReferences (with_place (moved_by C.units C.by self.old.leaves id at)) self.old.refs self.new.refs) }
        ensures usable { OnOk result (self.new.usable ≡ true) }
        ensures floor { self.new.floor ≡ self.old.floor }
        ensures err { OnErr result (self.new.usable ≡ false) }
    {
        match move_anchored(&mut self.blocks, &self.touched, &self.refs, id, at) {
            Ok(()) => Ok(()),
            Err(e) => {
                self.usable = false;
                Err(e)
            }
        }
    }

    /// Acknowledges a stage in all leaves under number `seq` of connection `conn`, by going to those that the
    /// stage touched. No lower stage has changes.
    ///
    /// Returns `OutOfMemory` where there is no room for it, and then the blocks may be used no more.
    pub fn ack(&mut self, alloc: Global, stage: u64, seq: u64, conn: u32) -> Result<(), OutOfMemory>
        requires usable { IsTrue self.old.usable }
        requires lowest { All (λ e. IsLowestChange stage e.overlay) (elements C.units C.by self.old.leaves) }
        ensures leaves { OnOk result (self.new.leaves ≡ map (acked_pair C.stamped stage seq conn) self.old.leaves) }
        ensures refs { OnOk result (KeepsReferences self.old.refs self.new.refs) }
        ensures usable { OnOk result (self.new.usable ≡ true) }
        ensures floor { self.new.floor ≡ self.old.floor }
        ensures err { OnErr result (self.new.usable ≡ false) }
    {
        match ack_in(
            &mut self.blocks,
            &mut self.touched,
            &mut self.refs,
            alloc,
            stage,
            seq,
            conn,
        ) {
            Ok(()) => Ok(()),
            Err(e) => {
                self.usable = false;
                Err(e)
            }
        }
    }

    /// Puts a new pending reference on an element, and returns its number.
    ///
    /// Returns `OutOfMemory` where there is no room for it, and then the blocks may be used no more.
    pub fn add_ref(&mut self, at: &Place) -> Result<RefId, OutOfMemory>
        requires usable { IsTrue self.old.usable }
        requires on { IsOnLeaf C.units self.old.leaves at.now }
        ensures fresh { IfOk result (λ r. reference_at self.old.refs r ≡ None) }
        ensures added { IfOk result (λ r. reference_at self.new.refs r ≡ Some record { place = Some (place_on C.units C.by self.old.leaves at.now); acked = false }) }
        ensures others { IfOk result (λ r. (x : ℕ) → x ≢ r → reference_at self.new.refs x ≡ reference_at self.old.refs x) }
        ensures rest { OnOk result (self.new ≡ record self.old { refs = self.new.refs }) }
        ensures err { OnErr result (self.new.usable ≡ false) }
    {
        match add_anchored(&self.blocks, &mut self.refs, at) {
            Ok(r) => Ok(r),
            Err(e) => {
                self.usable = false;
                Err(e)
            }
        }
    }

    /// Where a reference stands: None exactly where it is detached.
    pub fn ref_place(&self, r: RefId) -> Option<Place>
        requires usable { IsTrue self.now.usable }
        requires live { IsReferenceIn self.now.refs r }
        ensures on { IfSome result (IsOnLeaf C.units self.now.leaves) }
        ensures place { option_map (place_on C.units C.by self.now.leaves) result ≡ reference_place self.now.refs r }
    {
        place_anchored(&self.blocks, &self.refs, r)
    }

    /// Makes a reference acknowledged, and slides it.
    pub fn settle_ref(&mut self, r: RefId)
        requires usable { IsTrue self.old.usable }
        requires live { IsReferenceIn self.old.refs r }
        ensures refs { let old = elements C.units C.by self.old.leaves in
            ChangesReference r (λ x. Some (slid_reference old (record x { acked = true }))) self.old.refs self.new.refs }
        ensures rest { self.new ≡ record self.old { refs = self.new.refs } }
    {
        settle_anchored(&self.blocks, &self.touched, &mut self.refs, r);
    }

    /// Ends a reference.
    pub fn drop_ref(&mut self, r: RefId)
        requires usable { IsTrue self.old.usable }
        requires live { IsReferenceIn self.old.refs r }
        ensures refs { ChangesReference r (λ x. None) self.old.refs self.new.refs }
        ensures rest { self.new ≡ record self.old { refs = self.new.refs } }
    {
        drop_anchored(&self.blocks, &mut self.refs, r);
    }

    /// Lets acknowledged references slide, after sequenced removals. It goes to the leaves with references whose
    /// stamps changed since the last time.
    pub fn slide(&mut self)
        requires { IsTrue self.old.usable }
        ensures refs { ChangesReferences (slid_reference (elements C.units C.by self.old.leaves)) self.old.refs self.new.refs }
        ensures rest { self.new ≡ record self.old { refs = self.new.refs } }
    {
        slide_anchored(&self.blocks, &self.touched, &mut self.refs);
    }

    /// The least pending stage above this one that marks an element as removed. It goes to the leaves that the
    /// stages above this one touched, up to the first with a mark.
    pub fn next_removal(&self, stage: u64) -> Option<u64>
        requires { IsTrue self.now.usable }
        ensures { result ≡ next_removal_above stage (elements C.units C.by self.now.leaves) }
    {
        // What holds of the leaves at any time is read off its contract.
        let _first = reads::first(&self.blocks);
        next_wanted_in(&self.blocks, &self.touched, stage, Wanted::Removal)
    }

    /// The least pending stage above this one of which a leaf has something: None exactly where there is none. It
    /// goes to the leaves that the stages above this one touched, up to the first that has something of its stage.
    pub fn next_pending(&self, stage: u64) -> Option<u64>
        requires { IsTrue self.now.usable }
        ensures { result ≡ next_pending_above stage self.now.leaves }
    {
        // What holds of the leaves at any time is read off its contract.
        let _first = reads::first(&self.blocks);
        next_wanted_in(&self.blocks, &self.touched, stage, Wanted::Anything)
    }

    /// The nodes of the leaves that have something of the stage: its insertion, a removal mark or changes. They
    /// stand in the order of the list. It goes to the leaves that the stage touched, finds the place of each, and
    /// sorts them by it.
    pub fn stage_leaves(&self, stage: u64) -> Result<Vec<NodeId>, OutOfMemory>
        requires { IsTrue self.now.usable }
        ensures { IfOk result (λ v. v.items ≡ touched_nodes stage self.now.leaves) }
    {
        stage_leaves_in(&self.blocks, &self.touched, stage)
    }

    /// Takes leaves that have nothing of a stage any more off the list of what that touched, and lists without any leaf go. Nothing
    /// that is seen changes. It looks at each listed leaf once.
    ///
    /// Returns `OutOfMemory` where there is no room for what is left, and then the blocks may be used no more.
    pub fn prune(&mut self) -> Result<(), OutOfMemory>
        requires { IsTrue self.old.usable }
        ensures ok { OnOk result (self.new ≡ self.old) }
        ensures err { OnErr result (self.new.usable ≡ false) }
    {
        match prune_in(&self.blocks, &mut self.touched) {
            Ok(()) => Ok(()),
            Err(e) => {
                self.usable = false;
                Err(e)
            }
        }
    }

    /// The floor.
    pub fn floor(&self) -> u64
        ensures { result ≡ self.now.floor }
    {
        self.blocks.floor()
    }

    /// Raises the floor, which isn't below the old one.
    pub fn raise_floor(&mut self, floor: u64)
        requires { self.old.floor ≤ floor }
        ensures { self.new ≡ record self.old { floor = floor } }
    {
        self.blocks.raise_floor(floor);
    }
}
