//! The tree as its callers see it: leaves in order, each under the number of its node.

ghost use Rattle.std.specs.Prelude.{◌≡◌, ◌≢◌, ℕ, ◌+◌, ◌*◌, ◌^◌, ◌<◌, ◌≤◌, Some, IsTrue, IfOk, IfErr, OnOk, OnErr, MatchOption, All, IsSomeAnd, true, false, length, nat_lt, []};
ghost use Rattle.ft_arena.specs.Ids.{first, after};
ghost use Rattle.ft_block.specs.Leaves.{length_by, place_by, seen_length};
ghost use Rattle.ft_block.specs.declared.leaves.LenView.TheVariants.{Stage};

use crate::change::change_in;
use crate::counted::{
    insert_in, is_before_in, join_in, leaf_in, length_in, move_in, position_in, set_stamps_in,
    split_in, take_in,
};
use crate::find::find_from;
use crate::leaves::{Leaf, LenView, View};
use crate::position::leaf_at;
use crate::summaries::Summary;
use ft_arena::{Arena, NodeId};
use ft_base::{Element, OutOfMemory, Perspective, Steps};
use ft_shape::Headed;
use std::alloc::Global;
use std::marker::{Brand, Model};
use std::sync::ledger::{Blank, Ledger};

/// A leaf, and how many of its elements stand up to a place; no leaf for the head of the list.
#[derive(Drop)]
pub struct Found {
    /// The leaf, None exactly for place 0.
    pub leaf: Option<NodeId>,
    /// How many of its elements stand up to the place, from 1; 0 for place 0.
    pub offset: u64,
}

/// The place is above the length seen.
#[derive(Clone, Copy, Debug, PartialEq, Eq)]
pub struct OutOfRange {
    /// The length seen.
    pub length: u64,
}

/// Leaves in order, in a balanced tree: at most eight children a block, at least four but at the root,
/// all leaves at one depth. A contract sees the leaves from first to last, each with its node and its
/// value, the number of blocks below the root on the way to a leaf, the floor, and whether the blocks
/// may still be used: after want of memory they may not, for good. What perspectives see is answered
/// for those from the floor up; it is 0 at first.
#[derive(Drop)]
pub struct Blocks<L: Leaf> {
    arena: Arena<L, Headed<Summary>>,
    root: Option<usize>,
    floor: u64,
    usable: bool,
    alloc: Global,
}

impl<L: Leaf> Model for Blocks<L> {
    ghost use Rattle.ft_block.specs.Leaves.{LeafList};

    ghost Value = { LeafList L };

    ghost use Rattle.ft_block.specs.Inside.{view_of, IsSoundIfUsable};

    ghost view = { view_of };

    ghost invariant = { IsSoundIfUsable L.size L.element };
}

impl<L: Leaf> Blocks<L> {
    ghost use Rattle.ft_block.specs.Leaves.{
      LeafList,
      IsLeafIn,
      IsPlaceIn,
      times_leaf,
      ids,
      value_at,
      left_of,
      put_leaf,
      change_leaf,
      split_leaf,
      without_leaf,
      move_leaf,
      value_after,
      join_leaf,
      local_length,
      removed_length,
      IsFromFloor,
    };
    ghost use Rattle.ft_block.specs.Tree.{KeepsLengths, shown_length};
    ghost use Rattle.ft_block.specs.declared.leaves.LenView.TheVariants.{At};

    /// No leaves.
    pub fn new(alloc: Global) -> Blocks<L>
        ensures { result ≡ record { leaves = []; depth = 0; floor = 0; usable = true } }
    {
        Blocks {
            arena: Arena::new(alloc),
            root: None,
            floor: 0,
            usable: true,
            alloc,
        }
    }

    /// The first leaf: None exactly where there is no leaf.
    pub fn first(&self) -> Option<NodeId>
        requires { IsTrue self.now.usable }
        ensures value { result ≡ first (ids self.now.leaves) }

        // What holds of the leaves at any time.
        ensures once { (id : ℕ) → times_leaf self.now.leaves id ≤ 1 }
        ensures some { All (λ x. 1 ≤ L.size x.1) self.now.leaves }
        ensures few { length_by L.size self.now.leaves < 2 ^ 64 }
        ensures depth { 4 ^ self.now.depth ≤ length self.now.leaves + 1 }
    {
        self.arena.first()
    }

    /// The leaf after this one: None exactly where it is the last.
    pub fn next(&self, id: NodeId) -> Option<NodeId>
        requires usable { IsTrue self.now.usable }
        requires live { IsLeafIn self.now.leaves id }
        ensures { result ≡ after (ids self.now.leaves) id }
    {
        self.arena.next(id)
    }

    /// The leaf before this one: None exactly where it is the first.
    pub fn prev(&self, id: NodeId) -> Option<NodeId>
        requires usable { IsTrue self.now.usable }
        requires live { IsLeafIn self.now.leaves id }
        ensures { MatchOption result (first (ids self.now.leaves) ≡ Some id) (λ p. after (ids self.now.leaves) p ≡ Some id) }
    {
        self.arena.prev(id)
    }

    /// The value of a leaf.
    pub fn leaf(&self, id: NodeId) -> &L
        requires usable { IsTrue self.now.usable }
        requires live { IsLeafIn self.now.leaves id }
        ensures { value_at self.now.leaves id ≡ Some result.now }
    {
        leaf_in::<L, Brand>(&self.arena, id, Blank::new(1))
    }

    /// The value of a leaf, for one step.
    pub fn leaf_counted<G: Ledger>(&self, id: NodeId, steps: &mut Steps<G>) -> &L
        requires usable { IsTrue self.now.usable }
        requires live { IsLeafIn self.now.leaves id }
        ensures value { value_at self.now.leaves id ≡ Some result.now }
        ensures tick { steps.new ≡ steps.old + 1 }
    {
        leaf_at(&self.arena, id, steps)
    }

    /// The leaf that holds the `p`-th element of the local view, and how many of its elements stand
    /// up to that one; the head of the list for `p` = 0. The local view is that with all that is
    /// pending. Each read of a node is one step.
    ///
    /// Returns `OutOfRange` exactly where `p` is above the length of that view.
    pub fn find_local<G: Ledger>(&self, p: u64, steps: &mut Steps<G>) -> Result<Found, OutOfRange>
        requires { IsTrue self.now.usable }
        ensures found { IfOk result (λ found. place_by (local_length L.size L.element) self.now.leaves p ≡ Some found) }
        ensures length { IfErr result (λ e. e.length ≡ length_by (local_length L.size L.element) self.now.leaves) }
        ensures beyond { IfErr result (λ e. e.length < p) }

        // It reads a few nodes on each level, and a tree has at least four times as many leaves as the one
        // that is a level lower.
        ensures cost { steps.new ≤ steps.old + 9 * (self.now.depth + 1) }
        ensures depth { 4 ^ self.now.depth ≤ length self.now.leaves + 1 }
    {
        self.find_in(p, View::Of(LenView::Stage(u64::MAX)), steps)
    }

    /// The leaf that holds the `p`-th element that the perspective sees, and how many of its
    /// elements stand up to that one; the head of the list for `p` = 0. The reference number isn't
    /// below the floor. Each read of a node is one step.
    ///
    /// Returns `OutOfRange` exactly where `p` is above the length that the perspective sees.
    pub fn find<G: Ledger>(
        &self,
        p: u64,
        at: Perspective,
        steps: &mut Steps<G>,
    ) -> Result<Found, OutOfRange>
        requires usable { IsTrue self.now.usable }
        requires floor { self.now.floor ≤ at.r }
        ensures found { IfOk result (λ found. place_by (seen_length L.size L.element (At at)) self.now.leaves p ≡ Some found) }
        ensures length { IfErr result (λ e. e.length ≡ length_by (seen_length L.size L.element (At at)) self.now.leaves) }
        ensures beyond { IfErr result (λ e. e.length < p) }
        ensures cost { steps.new ≤ steps.old + 9 * (self.now.depth + 1) }
        ensures depth { 4 ^ self.now.depth ≤ length self.now.leaves + 1 }
    {
        self.find_in(p, View::Of(LenView::At(at)), steps)
    }

    /// The leaf that holds the `p`-th of all elements, the removed ones too, and how many of its elements
    /// stand up to that one; the head of the list for `p` = 0. Each read of a node is one step.
    ///
    /// Returns `OutOfRange` exactly where `p` is above the number of elements.
    pub fn find_any<G: Ledger>(&self, p: u64, steps: &mut Steps<G>) -> Result<Found, OutOfRange>
        requires { IsTrue self.now.usable }
        ensures found { IfOk result (λ found. place_by L.size self.now.leaves p ≡ Some found) }
        ensures length { IfErr result (λ e. e.length ≡ length_by L.size self.now.leaves) }
        ensures beyond { IfErr result (λ e. e.length < p) }
        ensures cost { steps.new ≤ steps.old + 9 * (self.now.depth + 1) }
        ensures depth { 4 ^ self.now.depth ≤ length self.now.leaves + 1 }
    {
        self.find_in(p, View::Of(LenView::All), steps)
    }

    /// The leaf that holds the `p`-th of the elements whose first removal is sequenced, and how many of these
    /// stand in it up to that one; the head of the list for `p` = 0. Each read of a node is one step, and a block
    /// without such elements is passed by one.
    ///
    /// Returns `OutOfRange` exactly where `p` is above the number of these elements.
    pub fn find_removed<G: Ledger>(&self, p: u64, steps: &mut Steps<G>) -> Result<Found, OutOfRange>
        requires { IsTrue self.now.usable }
        ensures found { IfOk result (λ found. place_by (removed_length L.size L.element) self.now.leaves p ≡ Some found) }
        ensures length { IfErr result (λ e. e.length ≡ length_by (removed_length L.size L.element) self.now.leaves) }
        ensures beyond { IfErr result (λ e. e.length < p) }
        ensures cost { steps.new ≤ steps.old + 9 * (self.now.depth + 1) }
        ensures depth { 4 ^ self.now.depth ≤ length self.now.leaves + 1 }
    {
        self.find_in(p, View::Removed, steps)
    }

    /// The leaf that holds the `p`-th element that a pending stage sees, and how many of its elements stand
    /// up to that one; the head of the list for `p` = 0.
    ///
    /// It reads a few nodes on each level, and in these the pending stamps of later stages.
    ///
    /// Returns `OutOfRange` exactly where `p` is above the length that the stage sees.
    pub fn find_at_stage(&self, p: u64, stage: u64) -> Result<Found, OutOfRange>
        requires { IsTrue self.now.usable }
        ensures found { IfOk result (λ found. place_by (seen_length L.size L.element (Stage stage)) self.now.leaves p ≡ Some found) }
        ensures length { IfErr result (λ e. e.length ≡ length_by (seen_length L.size L.element (Stage stage)) self.now.leaves) }
        ensures beyond { IfErr result (λ e. e.length < p) }
    {
        find_in_stage::<L, Brand>(self, p, stage, Blank::new(1))
    }

    // The same in any view that the blocks keep.
    fn find_in<G: Ledger>(
        &self,
        p: u64,
        view: View,
        steps: &mut Steps<G>,
    ) -> Result<Found, OutOfRange>
        requires usable { IsTrue self.now.usable }
        requires kept { KeepsLengths self.now.floor view }
        ensures found { IfOk result (λ found. place_by (shown_length L.size L.element view) self.now.leaves p ≡ Some found) }
        ensures length { IfErr result (λ e. e.length ≡ length_by (shown_length L.size L.element view) self.now.leaves) }
        ensures beyond { IfErr result (λ e. e.length < p) }
        ensures cost { steps.new ≤ steps.old + 9 * (self.now.depth + 1) }
        ensures depth { 4 ^ self.now.depth ≤ length self.now.leaves + 1 }
    {
        // How deep the tree is holds also where nothing of it is read.
        let _ = &self.root;
        if p == 0 {
            return Ok(Found {
                leaf: None,
                offset: 0,
            });
        }
        match self.root {
            None => Err(OutOfRange { length: 0 }),
            Some(root) => {
                match find_from(&self.arena, NodeId(root), self.floor, view, p, steps) {
                    Ok((id, offset)) => Ok(Found {
                        leaf: Some(id),
                        offset,
                    }),
                    Err(length) => Err(OutOfRange { length }),
                }
            }
        }
    }

    /// How many elements the view sees left of the leaf.
    ///
    /// The reference number of a perspective isn't below the floor. It goes up from the leaf.
    pub fn position_of(&self, leaf: NodeId, view: LenView) -> u64
        requires usable { IsTrue self.now.usable }
        requires floor { IsFromFloor self.now.floor view }
        requires live { IsLeafIn self.now.leaves leaf }
        ensures { result ≡ length_by (seen_length L.size L.element view) (left_of self.now.leaves leaf) }
    {
        position_in::<L, Brand>(
            &self.arena,
            self.root,
            self.floor,
            leaf,
            view,
            Blank::new(1),
        )
    }

    /// Whether the first leaf stands before the second.
    ///
    /// It goes up from both to the nearest block above both: it reads one block of each level for each of the two, and of
    /// these only the last one's children.
    pub fn is_before(&self, first: NodeId, second: NodeId) -> bool
        requires usable { IsTrue self.now.usable }
        requires first { IsLeafIn self.now.leaves first }
        requires second { IsLeafIn self.now.leaves second }
        ensures { result ≡ nat_lt (length (left_of self.now.leaves first)) (length (left_of self.now.leaves second)) }
    {
        is_before_in::<L, Brand>(&self.arena, self.root, first, second, Blank::new(1))
    }

    /// How many elements the view sees.
    ///
    /// The reference number of a perspective isn't below the floor. It is kept.
    pub fn length(&self, view: LenView) -> u64
        requires usable { IsTrue self.now.usable }
        requires floor { IsFromFloor self.now.floor view }
        ensures { result ≡ length_by (seen_length L.size L.element view) self.now.leaves }
    {
        length_in::<L, Brand>(&self.arena, self.root, self.floor, view, Blank::new(1))
    }

    /// Puts a new leaf directly after the given one, or first where none is given.
    ///
    /// Returns `OutOfMemory` where there is no room for it, and then the blocks may be used no more.
    pub fn insert_after(&mut self, at: Option<NodeId>, leaf: L) -> Result<NodeId, OutOfMemory>
    where
        L: Drop,
        requires usable { IsTrue self.old.usable }
        requires place { IsPlaceIn self.old.leaves at }
        requires fits { length_by L.size self.old.leaves + L.size leaf < 2 ^ 64 }
        ensures ok { IfOk result (λ id. self.new.leaves ≡ put_leaf self.old.leaves at (id, leaf)) }
        ensures fresh { IfOk result (λ id. times_leaf self.old.leaves id ≡ 0) }
        ensures usable { OnOk result (self.new.usable ≡ true) }
        ensures floor { self.new.floor ≡ self.old.floor }
        ensures err { OnErr result (self.new.usable ≡ false) }
    {
        // That it has an element is read off its contract.
        let _len = leaf.len();
        match insert_in::<L, Brand>(
            &mut self.arena,
            self.alloc,
            self.floor,
            self.root,
            at,
            leaf,
            Blank::new(1),
        ) {
            Ok((top, id)) => {
                self.root = Some(top.0);
                Ok(id)
            }
            Err(e) => {
                self.usable = false;
                Err(e)
            }
        }
    }

    /// Cuts a leaf in two: its first `at` elements keep the node, the rest gets a new one directly after
    /// it, which is returned.
    ///
    /// Returns `OutOfMemory` where there is no room for it, and then the blocks may be used no more.
    pub fn split(&mut self, leaf: NodeId, at: u64) -> Result<NodeId, OutOfMemory>
        requires usable { IsTrue self.old.usable }
        requires low { 1 ≤ at }
        requires high { IsSomeAnd (value_at self.old.leaves leaf) (λ v. at < L.size v) }
        ensures ok { IfOk result (λ id. self.new.leaves ≡ split_leaf (λ v. L.front v at) (λ v. L.rear v at) self.old.leaves leaf id) }
        ensures fresh { IfOk result (λ id. times_leaf self.old.leaves id ≡ 0) }
        ensures usable { OnOk result (self.new.usable ≡ true) }
        ensures floor { self.new.floor ≡ self.old.floor }
        ensures err { OnErr result (self.new.usable ≡ false) }
    {
        match split_in::<L, Brand>(
            &mut self.arena,
            self.alloc,
            self.floor,
            self.root,
            leaf,
            at,
            Blank::new(1),
        ) {
            Ok((top, id)) => {
                self.root = Some(top.0);
                Ok(id)
            }
            Err(e) => {
                self.usable = false;
                Err(e)
            }
        }
    }

    /// Replaces the stamps of all elements of a leaf. No other leaf changes.
    ///
    /// Returns `OutOfMemory` where there is no room for it, and then the blocks may be used no more.
    pub fn set_stamps(&mut self, id: NodeId, e: Element) -> Result<(), OutOfMemory>
        requires usable { IsTrue self.old.usable }
        requires live { IsLeafIn self.old.leaves id }
        ensures ok { OnOk result (self.new.leaves ≡ change_leaf (λ v. L.with_element v e) self.old.leaves id) }
        ensures usable { OnOk result (self.new.usable ≡ true) }
        ensures floor { self.new.floor ≡ self.old.floor }
        ensures err { OnErr result (self.new.usable ≡ false) }
    {
        match set_stamps_in::<L, Brand>(
            &mut self.arena,
            self.root,
            self.floor,
            id,
            e,
            Blank::new(1),
        ) {
            Ok(()) => Ok(()),
            Err(e) => {
                self.usable = false;
                Err(e)
            }
        }
    }

    /// Makes this change of all elements of a leaf. No other leaf changes.
    ///
    /// Returns `OutOfMemory` where there is no room for it, and then the blocks may be used no more.
    pub fn change(&mut self, id: NodeId, c: &L::Change) -> Result<(), OutOfMemory>
        requires usable { IsTrue self.old.usable }
        requires can { IsSomeAnd (value_at self.old.leaves id) (λ v. L.CanChange v c.now) }
        ensures ok { OnOk result (self.new.leaves ≡ change_leaf (λ v. L.changed v c.now) self.old.leaves id) }
        ensures usable { OnOk result (self.new.usable ≡ true) }
        ensures floor { self.new.floor ≡ self.old.floor }
        ensures err { OnErr result (self.new.usable ≡ false) }
    {
        match change_in(&mut self.arena, self.root, self.floor, id, c) {
            Ok(()) => Ok(()),
            Err(e) => {
                self.usable = false;
                Err(e)
            }
        }
    }

    /// Takes a leaf out, and returns its value. No other leaf changes.
    ///
    /// Returns `OutOfMemory` where there is no room for what blocks keep, and then the blocks may be used
    /// no more.
    pub fn take(&mut self, id: NodeId) -> Result<L, OutOfMemory>
        requires usable { IsTrue self.old.usable }
        requires live { IsLeafIn self.old.leaves id }
        ensures value { IfOk result (λ v. value_at self.old.leaves id ≡ Some v) }
        ensures ok { OnOk result (self.new.leaves ≡ without_leaf self.old.leaves id) }
        ensures usable { OnOk result (self.new.usable ≡ true) }
        ensures floor { self.new.floor ≡ self.old.floor }
        ensures err { OnErr result (self.new.usable ≡ false) }
    {
        match take_in::<L, Brand>(
            &mut self.arena,
            self.alloc,
            self.floor,
            self.root,
            id,
            Blank::new(1),
        ) {
            Ok((root, value)) => {
                self.root = root;
                Ok(value)
            }
            Err(e) => {
                self.usable = false;
                Err(e)
            }
        }
    }

    /// Joins the next leaf's elements, which have the same stamps, to this leaf, and takes the next leaf
    /// out. No other leaf changes.
    ///
    /// Returns `OutOfMemory` where there is no room for them, and then the blocks may be used no more.
    pub fn join_next(&mut self, id: NodeId) -> Result<(), OutOfMemory>
    where
        L: Drop,
        requires usable { IsTrue self.old.usable }
        requires can { IsSomeAnd (value_at self.old.leaves id) (λ v. IsSomeAnd (value_after self.old.leaves id) (λ w. IsTrue (L.joins v w) × (L.element v ≡ L.element w))) }
        ensures ok { OnOk result (self.new.leaves ≡ join_leaf (λ v w. L.joined v w) self.old.leaves id) }
        ensures usable { OnOk result (self.new.usable ≡ true) }
        ensures floor { self.new.floor ≡ self.old.floor }
        ensures err { OnErr result (self.new.usable ≡ false) }
    {
        // What holds of the leaves at any time is read off its contract.
        let _first = self.first();
        let Some(next) = self.next(id) else {
            unreachable!();
        };
        let value = self.take(next)?;
        match join_in::<L, Brand>(
            &mut self.arena,
            self.root,
            self.floor,
            id,
            value,
            Blank::new(1),
        ) {
            Ok(()) => Ok(()),
            Err(e) => {
                self.usable = false;
                Err(e)
            }
        }
    }

    /// Moves a leaf directly after the given one, or first where none is given. It keeps its node, and
    /// all other leaves keep theirs and their order.
    ///
    /// Returns `OutOfMemory` where there is no room for what blocks keep, and then the blocks may be used
    /// no more.
    pub fn move_after(&mut self, id: NodeId, at: Option<NodeId>) -> Result<(), OutOfMemory>
        requires usable { IsTrue self.old.usable }
        requires live { IsLeafIn self.old.leaves id }
        requires place { IsPlaceIn self.old.leaves at }
        requires differ { at ≢ Some id }
        ensures ok { OnOk result (self.new.leaves ≡ move_leaf self.old.leaves id at (value_at self.old.leaves id)) }
        ensures usable { OnOk result (self.new.usable ≡ true) }
        ensures floor { self.new.floor ≡ self.old.floor }
        ensures err { OnErr result (self.new.usable ≡ false) }
    {
        match move_in::<L, Brand>(
            &mut self.arena,
            self.alloc,
            self.floor,
            self.root,
            id,
            at,
            Blank::new(1),
        ) {
            Ok(root) => {
                self.root = root;
                Ok(())
            }
            Err(e) => {
                self.usable = false;
                Err(e)
            }
        }
    }

    /// The floor.
    pub fn floor(&self) -> u64
        ensures { result ≡ self.now.floor }
    {
        self.floor
    }

    /// Raises the floor, which isn't below the old one.
    pub fn raise_floor(&mut self, floor: u64)
        requires { self.old.floor ≤ floor }
        ensures { self.new ≡ record self.old { floor = floor } }
    {
        self.floor = floor;
    }
}

// `find_at_stage` with a counter of steps of its own.
fn find_in_stage<L: Leaf, G: Ledger>(
    blocks: &Blocks<L>,
    p: u64,
    stage: u64,
    blank: Blank,
) -> Result<Found, OutOfRange>
    requires name { blank.name ≡ G.name }
    requires parts { blank.parts ≡ G.parts }
    requires one { 0 < blank.parts }
    requires usable { IsTrue blocks.now.usable }
    ensures found { IfOk result (λ found. place_by (seen_length L.size L.element (Stage stage)) blocks.now.leaves p ≡ Some found) }
    ensures length { IfErr result (λ e. e.length ≡ length_by (seen_length L.size L.element (Stage stage)) blocks.now.leaves) }
    ensures beyond { IfErr result (λ e. e.length < p) }
{
    let mut steps = Steps::<G>::new(blank);
    blocks.find_in(p, View::Of(LenView::Stage(stage)), &mut steps)
}
