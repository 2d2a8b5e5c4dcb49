//! The merge tree as its callers see it. Its leaves stand in blocks, which find a place by reading a few of
//! them; its references stand on leaves.

ghost use Rattle.std.specs.Prelude.{false, ◌≡◌, ◌≤◌, [], None, IfOk, IsTrue, length, map, true};
ghost use Rattle.ft_base.specs.Scan.{len};
ghost use Rattle.ft_block.specs.Leaves.{IsFromFloor, IsLeafIn, IsPlaceIn, left_of, place_by};
ghost use Rattle.ft_tree_leaves.specs.Elements.{seen_in};
ghost use Rattle.ft_tree_leaves.specs.LeafLists.{elements, leaf_length, leaf_removed};
ghost use Rattle.ft_props.specs.Properties.{max_safe_integer};

use ft_arena::NodeId;
use ft_base::{Element, OutOfMemory};
use ft_block::{Found, LenView};
use ft_tree_blocks::{LeafBlocks, find_leaf};
use ft_tree_leaves::Content;
use ft_tree_steps::{all_stamps, find_removed_leaf, seen_count, seen_left};
use std::alloc::Global;
use std::marker::{Brand, Model};
use std::sync::ledger::Blank;

/// A list of elements in leaves, with references to elements. A contract sees the leaves from first to
/// last, each with its node; the references; the floor; the leaf at which the next sweep begins; how many
/// elements were ever made; how deep a search goes; and whether the tree may still be used: after want of
/// memory in a call that changes it, it may not, for good. The elements of all leaves in order are what
/// most clauses speak of.
#[derive(Drop)]
pub struct Tree<C: Content> {
    pub(crate) blocks: LeafBlocks<C>,
    pub(crate) alloc: Global,
    pub(crate) sweep: Option<NodeId>,
    pub(crate) made: u64,
    pub(crate) usable: bool,
}

impl<C: Content> Model for Tree<C> {
    ghost use Rattle.ft_tree.specs.State.{TreeState};

    ghost Value = { TreeState C };

    ghost use Rattle.ft_tree.specs.Inside.{view_of, IsSoundIfUsable};

    ghost view = { view_of };

    ghost invariant = { IsSoundIfUsable C.units C.by };
}

impl<C: Content> Tree<C> {
    /// No elements.
    pub fn new(alloc: Global) -> Tree<C>
        ensures { result ≡ record { leaves = []; refs = []; floor = 0; sweep = None; made = 0; depth = 0; usable = true } }
    {
        Tree {
            blocks: LeafBlocks::new(alloc),
            alloc,
            sweep: None,
            made: 0,
            usable: true,
        }
    }

    /// Where the tree takes its memory.
    pub fn allocator(&self) -> Global {
        self.alloc
    }

    /// How many elements were ever made in it, those that are gone included.
    pub fn made(&self) -> u64
        ensures value { result ≡ self.now.made }

        // What holds of them while the tree may be used.
        ensures fits { IsTrue self.now.usable → length (elements C.units C.by self.now.leaves) ≤ self.now.made }
        ensures small { IsTrue self.now.usable → self.now.made ≤ max_safe_integer }
    {
        self.made
    }

    /// The floor: every perspective that is asked has at least this reference number.
    pub fn floor(&self) -> u64
        ensures { result ≡ self.now.floor }
    {
        self.blocks.floor()
    }

    /// Raises the floor.
    pub fn raise_floor(&mut self, floor: u64)
        requires usable { IsTrue self.old.usable }
        requires rising { self.old.floor ≤ floor }
        ensures { self.new ≡ record self.old { floor = floor } }
    {
        self.blocks.raise_floor(floor);
    }

    /// Makes it a tree that may be used no more: a call that found no memory has left undone what goes with it.
    pub fn spoil(&mut self)
        ensures { self.new ≡ record self.old { usable = false } }
    {
        self.usable = false;
    }

    /// The leaf at which the next sweep begins: None where that is the first.
    pub fn sweep(&self) -> Option<NodeId>
        ensures { result ≡ self.now.sweep }
    {
        self.sweep
    }

    /// Sets the leaf at which the next sweep begins.
    pub fn set_sweep(&mut self, id: Option<NodeId>)
        requires usable { IsTrue self.old.usable }
        requires live { IsPlaceIn self.old.leaves id }
        ensures { self.new ≡ record self.old { sweep = id } }
    {
        self.sweep = id;
    }

    /// How many elements the view sees.
    pub fn length(&self, view: LenView) -> u64
        requires usable { IsTrue self.now.usable }
        requires floor { IsFromFloor self.now.floor view }
        ensures { result ≡ len (seen_in view) (elements C.units C.by self.now.leaves) }
    {
        seen_count(self.blocks.list(), view)
    }

    /// The leaf that holds the `p`-th element that the view sees, and how many of its elements stand up to
    /// that one; the head of the list for `p` = 0. None exactly where `p` is above the length of that view.
    pub fn find(&self, p: u64, view: LenView) -> Option<Found>
        requires usable { IsTrue self.now.usable }
        requires floor { IsFromFloor self.now.floor view }
        ensures { result ≡ place_by (leaf_length C.units view) self.now.leaves p }
    {
        find_leaf::<C, Brand>(self.blocks.list(), p, view, Blank::new(1))
    }

    /// The leaf that holds the `p`-th of the elements whose first removal is sequenced, and how many of these stand in it
    /// up to that one; the head of the list for `p` = 0. None exactly where `p` is above their number. It reads a few
    /// nodes on each level.
    pub fn find_removed(&self, p: u64) -> Option<Found>
        requires { IsTrue self.now.usable }
        ensures { result ≡ place_by (leaf_removed C.units) self.now.leaves p }
    {
        find_removed_leaf::<C, Brand>(self.blocks.list(), p, Blank::new(1))
    }

    /// How many elements that the view sees stand left of a leaf.
    pub fn position_of(&self, leaf: NodeId, view: LenView) -> u64
        requires usable { IsTrue self.now.usable }
        requires floor { IsFromFloor self.now.floor view }
        requires live { IsLeafIn self.now.leaves leaf }
        ensures { result ≡ len (seen_in view) (elements C.units C.by (left_of self.now.leaves leaf)) }
    {
        seen_left(self.blocks.list(), leaf, view)
    }

    /// The stamps of the elements in order.
    pub fn elements(&self) -> Result<Vec<Element>, OutOfMemory>
        requires { IsTrue self.now.usable }
        ensures { IfOk result (λ v. v.items ≡ map (λ e. e.stamps) (elements C.units C.by self.now.leaves)) }
    {
        all_stamps(self.alloc, self.blocks.list())
    }
}
