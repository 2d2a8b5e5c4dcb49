//! A range of the elements of a tree: where it begins, and how it is changed.

ghost use Rattle.std.specs.Prelude.{◌≡◌, ◌≤◌, All, IfErr, IfOk, IsTrue, OnErr, OnOk, false};
ghost use Rattle.ft_base.specs.Scan.{change_range, len, place};
ghost use Rattle.ft_block.specs.declared.leaves.LenView.TheVariants.{At};
ghost use Rattle.ft_block.specs.Leaves.{ids, last_stage};
ghost use Rattle.ft_tree_steps.specs.RangeEdits.{MayEdit};
ghost use Rattle.ft_tree_steps.specs.LeafSteps.{IsInLeaf, held_place};
ghost use Rattle.ft_tree_leaves.specs.Elements.{seen_in};
ghost use Rattle.ft_tree_leaves.specs.LeafLists.{Extends, elements};
ghost use Rattle.ft_tree_leaves.specs.References.{KeepsReferences};
ghost use Rattle.ft_tree.specs.Inside.{edited_element};
ghost use Rattle.ft_tree.specs.State.{IsRefused, KeepsRest};
ghost use Rattle.ft_tree.specs.declared.faults.TreeFault.TheVariants as fault;

use crate::faults::TreeFault;
use crate::tree::Tree;
use ft_base::{Perspective, Steps};
use ft_block::{Found, LenView};
use ft_tree_leaves::Content;
use ft_tree_steps::{RangeEdit, edit_behind, find_local, find_seen_at, seen_count};
use std::sync::ledger::Ledger;

impl<C: Content> Tree<C> {
    /// The place of `p` elements that the local view sees, where `p` isn't above `q`.
    ///
    /// Returns `OutOfRange` exactly where `q` is above the length of that view.
    pub(crate) fn start_local<G: Ledger>(
        &self,
        p: u64,
        q: u64,
        steps: &mut Steps<G>,
    ) -> Result<Found, TreeFault>
        requires usable { IsTrue self.now.usable }
        requires order { p ≤ q }
        ensures held { IfOk result (λ found. IsInLeaf C.units self.now.leaves found.leaf found.offset) }
        ensures place { let list = elements C.units C.by self.now.leaves in
            IfOk result (λ found. held_place C.units C.by self.now.leaves found.leaf found.offset ≡ place (seen_in last_stage) p list) }
        ensures inside { OnOk result (q ≤ len (seen_in last_stage) (elements C.units C.by self.now.leaves)) }
        ensures refused { let list = elements C.units C.by self.now.leaves in
            IfErr result (IsRefused q (len (seen_in last_stage) list) self.now self.now) }
    {
        let length = seen_count(self.blocks.list(), LenView::Stage(u64::MAX));
        if length < q {
            return Err(TreeFault::OutOfRange { length });
        }
        match find_local(self.blocks.list(), p, steps) {
            Ok(found) => Ok(found),
            Err(e) => Err(TreeFault::OutOfRange { length: e.length }),
        }
    }

    /// The place of `p` elements that the perspective sees, where `p` isn't above `q`.
    ///
    /// Returns `OutOfRange` exactly where `q` is above the length seen.
    pub(crate) fn start_at<G: Ledger>(
        &self,
        p: u64,
        q: u64,
        at: Perspective,
        steps: &mut Steps<G>,
    ) -> Result<Found, TreeFault>
        requires usable { IsTrue self.now.usable }
        requires order { p ≤ q }
        requires floor { self.now.floor ≤ at.r }
        ensures held { IfOk result (λ found. IsInLeaf C.units self.now.leaves found.leaf found.offset) }
        ensures place { let list = elements C.units C.by self.now.leaves in
            IfOk result (λ found. held_place C.units C.by self.now.leaves found.leaf found.offset ≡ place (seen_in (At at)) p list) }
        ensures inside { OnOk result (q ≤ len (seen_in (At at)) (elements C.units C.by self.now.leaves)) }
        ensures refused { let list = elements C.units C.by self.now.leaves in
            IfErr result (IsRefused q (len (seen_in (At at)) list) self.now self.now) }
    {
        let length = seen_count(self.blocks.list(), LenView::At(at));
        if length < q {
            return Err(TreeFault::OutOfRange { length });
        }
        match find_seen_at(self.blocks.list(), p, at, steps) {
            Ok(found) => Ok(found),
            Err(e) => Err(TreeFault::OutOfRange { length: e.length }),
        }
    }

    /// Makes the edit of each element that the view sees from the `p`-th, whose place was found, up to before
    /// the `q`-th.
    ///
    /// Returns `OutOfMemory` where there is no room for it, and then the tree may be used no more.
    pub(crate) fn edit(
        &mut self,
        found: &Found,
        p: u64,
        q: u64,
        view: LenView,
        edit: &RangeEdit,
    ) -> Result<(), TreeFault>
        requires usable { IsTrue self.old.usable }
        requires order { p ≤ q }
        requires held { IsInLeaf C.units self.old.leaves found.now.leaf found.now.offset }
        requires place { let list = elements C.units C.by self.old.leaves in
            held_place C.units C.by self.old.leaves found.now.leaf found.now.offset ≡ place (seen_in view) p list }
        requires may { All (λ e. MayEdit edit.now e.overlay) (elements C.units C.by self.old.leaves) }
        ensures elements { let old = elements C.units C.by self.old.leaves in
            OnOk result (elements C.units C.by self.new.leaves ≡ change_range (seen_in view) p q (edited_element C.author edit.now) old) }
        ensures refs { OnOk result (KeepsReferences self.old.refs self.new.refs) }
        ensures nodes { OnOk result (Extends (ids self.old.leaves) (ids self.new.leaves)) }
        ensures rest { OnOk result (KeepsRest self.old self.new) }
        ensures made { OnOk result (self.new.made ≡ self.old.made) }
        ensures err { IfErr result (λ e. e ≡ fault.OutOfMemory) }
        ensures unusable { OnErr result (self.new.usable ≡ false) }
    {
        match edit_behind(&mut self.blocks, self.alloc, found, q - p, view, edit) {
            Ok(()) => Ok(()),
            Err(_) => {
                self.usable = false;
                Err(TreeFault::OutOfMemory)
            }
        }
    }
}
