//! How leaves come to the end of a tree, are moved, taken out, joined, or rid of a stage.

ghost use Rattle.std.specs.Prelude.{◌≡◌, ◌↔◌, ◌+◌, ◌≤◌, ◌++◌, if◌then◌else◌, [], Some, IsTrue, IfOk, OnOk, OnErr, true, false, length, option_map};
ghost use Rattle.ft_block.specs.Leaves.{IsLeafIn, IsPlaceIn, change_leaf, ids, join_leaf, move_leaf, value_at, without_leaf};
ghost use Rattle.ft_props.specs.Properties.{max_safe_integer};
ghost use Rattle.ft_tree_leaves.specs.Edits.{IsFreeOf, MayJoinNext, closed_by, joined_leaf, moved_by, sequenced_leaf, sweep_joined, sweep_without, unmarked_leaf, with_place};
ghost use Rattle.ft_tree_leaves.specs.Elements.{elements_with};
ghost use Rattle.ft_tree_leaves.specs.LeafLists.{Extends, elements};
ghost use Rattle.ft_tree_leaves.specs.References.{ChangesReferences, KeepsReferences};
ghost use Rattle.ft_tree.specs.State.{KeepsRest};

use crate::edits::{append, content_of};
use crate::tree::Tree;
use ft_arena::NodeId;
use ft_base::{Element, OutOfMemory};
use ft_props::Props;
use ft_tree_leaves::Content;
use ft_tree_steps::{join_at, move_at, sweep_joined, sweep_without, unmark_all_at, unmark_at};

impl<C: Content> Tree<C> {
    /// Puts elements with these stamps and acknowledged properties at the list's end, and nothing pending.
    ///
    /// Returns `OutOfMemory` where there is no room for them, and then the tree may be used no more.
    pub fn append(&mut self, content: C, props: &Props, e: Element) -> Result<(), OutOfMemory>
    where
        C: Drop,
        requires usable { IsTrue self.old.usable }
        requires made { self.old.made + length (C.units content) ≤ max_safe_integer }
        ensures elements { OnOk result (elements C.units C.by self.new.leaves
            ≡ elements C.units C.by self.old.leaves ++ elements_with e (C.by content) (record { acked = props.now; pending = [] }) (C.units content)) }
        ensures refs { OnOk result (KeepsReferences self.old.refs self.new.refs) }
        ensures nodes { OnOk result (Extends (ids self.old.leaves) (ids self.new.leaves)) }
        ensures rest { OnOk result (KeepsRest self.old self.new) }
        ensures made { OnOk result (self.new.made ≡ self.old.made + length (C.units content)) }
        ensures err { OnErr result (self.new.usable ≡ false) }
    {
        let count = content.len();
        match append(&mut self.blocks, self.alloc, content, props, e) {
            Ok(()) => {
                self.made += count;
                Ok(())
            }
            Err(e) => {
                self.usable = false;
                Err(e)
            }
        }
    }

    /// Moves a leaf directly after another, or to the head. Its references go with it.
    ///
    /// Returns `OutOfMemory` where there is no room for it, and then the tree may be used no more.
    pub fn move_leaf(&mut self, id: NodeId, at: Option<NodeId>) -> Result<(), OutOfMemory>
    where
        C: Drop,
        requires usable { IsTrue self.old.usable }
        requires live { IsLeafIn self.old.leaves id }
        requires place { IsPlaceIn (without_leaf self.old.leaves id) at }
        ensures leaves { OnOk result (self.new.leaves ≡ move_leaf self.old.leaves id at (value_at self.old.leaves id)) }
        ensures refs { OnOk result (ChangesReferences (with_place (moved_by C.units C.by self.old.leaves id at)) self.old.refs self.new.refs) }
        ensures rest { OnOk result (KeepsRest self.old self.new) }
        ensures made { OnOk result (self.new.made ≡ self.old.made) }
        ensures err { OnErr result (self.new.usable ≡ false) }
    {
        // What holds of the leaves at any time is read off its contract.
        let _first = self.blocks.first();
        match move_at(&mut self.blocks, id, at) {
            Ok(()) => Ok(()),
            Err(e) => {
                self.usable = false;
                Err(e)
            }
        }
    }

    /// Takes the removal mark and the changes of a stage off a leaf.
    ///
    /// Returns `OutOfMemory` where there is no room for what is left, and then the tree may be used no more.
    pub fn unmark(&mut self, id: NodeId, stage: u64) -> Result<(), OutOfMemory>
        requires usable { IsTrue self.old.usable }
        requires live { IsLeafIn self.old.leaves id }
        ensures leaves { OnOk result (self.new.leaves ≡ change_leaf (unmarked_leaf stage) self.old.leaves id) }
        ensures refs { OnOk result (KeepsReferences self.old.refs self.new.refs) }
        ensures rest { OnOk result (KeepsRest self.old self.new) }
        ensures made { OnOk result (self.new.made ≡ self.old.made) }
        ensures err { OnErr result (self.new.usable ≡ false) }
    {
        match unmark_at(&mut self.blocks, self.alloc, id, stage) {
            Ok(()) => Ok(()),
            Err(e) => {
                self.usable = false;
                Err(e)
            }
        }
    }

    /// Takes every pending removal mark and all pending changes off a leaf.
    ///
    /// Returns `OutOfMemory` where there is no room for what is left, and then the tree may be used no more.
    pub fn unmark_all(&mut self, id: NodeId) -> Result<(), OutOfMemory>
        requires usable { IsTrue self.old.usable }
        requires live { IsLeafIn self.old.leaves id }
        ensures leaves { OnOk result (self.new.leaves ≡ change_leaf sequenced_leaf self.old.leaves id) }
        ensures refs { OnOk result (KeepsReferences self.old.refs self.new.refs) }
        ensures rest { OnOk result (KeepsRest self.old self.new) }
        ensures made { OnOk result (self.new.made ≡ self.old.made) }
        ensures err { OnErr result (self.new.usable ≡ false) }
    {
        match unmark_all_at(&mut self.blocks, self.alloc, id) {
            Ok(()) => Ok(()),
            Err(e) => {
                self.usable = false;
                Err(e)
            }
        }
    }

    /// Takes leaves that have nothing of a pending stage any more off the list of what that touched. Nothing that is
    /// seen changes: an acknowledgement and a search for the next stage have fewer leaves to look at. It looks at each
    /// listed leaf once.
    ///
    /// Returns `OutOfMemory` where there is no room for what is left, and then the tree may be used no more.
    pub fn prune(&mut self) -> Result<(), OutOfMemory>
        requires { IsTrue self.old.usable }
        ensures ok { OnOk result (self.new ≡ self.old) }
        ensures err { OnErr result (self.new.usable ≡ false) }
    {
        match self.blocks.prune() {
            Ok(()) => Ok(()),
            Err(e) => {
                self.usable = false;
                Err(e)
            }
        }
    }

    /// Takes a leaf out on which no reference is, and returns its content. Where the next sweep was to begin
    /// at it, it begins at the leaf after it.
    ///
    /// Returns `OutOfMemory` where there is no room for what is kept, and then the tree may be used no more.
    pub fn take_leaf(&mut self, id: NodeId) -> Result<C, OutOfMemory>
    where
        C: Drop,
        requires usable { IsTrue self.old.usable }
        requires live { IsLeafIn self.old.leaves id }
        requires free { IsFreeOf C.units C.by self.old.leaves id self.old.refs }
        ensures content { IfOk result (λ content. option_map (λ x. x.content) (value_at self.old.leaves id) ≡ Some content) }
        ensures leaves { OnOk result (self.new.leaves ≡ without_leaf self.old.leaves id) }
        ensures refs { OnOk result (ChangesReferences (with_place (closed_by C.units C.by self.old.leaves id)) self.old.refs self.new.refs) }
        ensures sweep { OnOk result (self.new.sweep ≡ sweep_without self.old.leaves id self.old.sweep) }
        ensures floor { OnOk result (self.new.floor ≡ self.old.floor) }
        ensures made { OnOk result (self.new.made ≡ self.old.made) }
        ensures usable { OnOk result (self.new.usable ≡ true) }
        ensures err { OnErr result (self.new.usable ≡ false) }
    {
        // What holds of the leaves at any time is read off its contract.
        let _first = self.blocks.first();
        let sweep = sweep_without(self.blocks.list(), id, self.sweep);
        match self.blocks.take(id) {
            Ok(leaf) => {
                self.sweep = sweep;
                Ok(content_of(leaf))
            }
            Err(e) => {
                self.usable = false;
                Err(e)
            }
        }
    }

    /// Joins the next leaf to this one, if the two may be joined at the floor, and tells whether they may.
    /// Where the next sweep was to begin at that leaf, it begins at the one after it.
    ///
    /// Returns `OutOfMemory` where there is no room for both in one, and then the tree may be used no more.
    pub fn join_next(&mut self, id: NodeId) -> Result<bool, OutOfMemory>
    where
        C: Drop,
        requires usable { IsTrue self.old.usable }
        requires live { IsLeafIn self.old.leaves id }
        ensures answer { IfOk result (λ joined. IsTrue joined ↔ MayJoinNext C.joins self.old.floor self.old.leaves id) }
        ensures leaves { IfOk result (λ joined. self.new.leaves ≡ (if joined then join_leaf (joined_leaf C.joined) self.old.leaves id else self.old.leaves)) }
        ensures sweep { IfOk result (λ joined. self.new.sweep ≡ (if joined then sweep_joined self.old.leaves id self.old.sweep else self.old.sweep)) }
        ensures refs { OnOk result (KeepsReferences self.old.refs self.new.refs) }
        ensures floor { OnOk result (self.new.floor ≡ self.old.floor) }
        ensures made { OnOk result (self.new.made ≡ self.old.made) }
        ensures usable { OnOk result (self.new.usable ≡ true) }
        ensures err { OnErr result (self.new.usable ≡ false) }
    {
        // What holds of the leaves at any time is read off its contract.
        let _first = self.blocks.first();
        let sweep = sweep_joined(self.blocks.list(), id, self.sweep);
        let floor = self.blocks.floor();
        match join_at(&mut self.blocks, self.alloc, id, floor) {
            Ok(true) => {
                self.sweep = sweep;
                Ok(true)
            }
            Ok(false) => Ok(false),
            Err(e) => {
                self.usable = false;
                Err(e)
            }
        }
    }
}
