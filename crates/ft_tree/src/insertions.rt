//! How elements come into a tree.

ghost use Rattle.std.specs.Prelude.{◌≡◌, ℕ, ◌+◌, ◌*◌, ◌≤◌, [], IsTrue, IfErr, OnOk, OnErr, false, length};
ghost use Rattle.ft_base.specs.declared.stamps.Stamp.TheVariants.{Acked, Local};
ghost use Rattle.ft_base.specs.Scan.{len, no_run, place, put};
ghost use Rattle.ft_block.specs.declared.leaves.LenView.{LenView};
ghost use Rattle.ft_block.specs.declared.leaves.LenView.TheVariants.{At};
ghost use Rattle.ft_tree_steps.specs.LeafSteps.{IsInLeaf, held_place};
ghost use Rattle.ft_block.specs.Leaves.{ids, last_stage};
ghost use Rattle.ft_props.specs.Properties.{apply, max_safe_integer};
ghost use Rattle.ft_tree.specs.declared.faults.TreeFault.TheVariants as fault;
ghost use Rattle.ft_tree_leaves.specs.Edits.{with_place};
ghost use Rattle.ft_tree_leaves.specs.Elements.{is_pending, new_elements, seen_in};
ghost use Rattle.ft_tree_leaves.specs.Places.{put_place, shifted_place};
ghost use Rattle.ft_tree_leaves.specs.LeafChanges.{fresh_leaf};
ghost use Rattle.ft_tree_leaves.specs.Plain.{passes};
ghost use Rattle.ft_tree.specs.Inside.{Puts};
ghost use Rattle.ft_tree_leaves.specs.LeafLists.{Extends, elements, pending_leaves};
ghost use Rattle.ft_tree_leaves.specs.References.{ChangesReferences};
ghost use Rattle.ft_tree.specs.State.{IsRefused, KeepsRest};

use crate::faults::TreeFault;
use crate::tree::Tree;
use ft_base::{Perspective, Stamp, Steps};
use ft_block::Found;
use ft_props::PropSet;
use ft_tree_leaves::Content;
use ft_tree_steps::{find_local, find_seen_at, insert_at};
use std::sync::ledger::Ledger;

impl<C: Content> Tree<C> {
    /// Puts new elements of a pending stage in, directly after the `p`-th element of the local view, which is
    /// that with all that is pending.
    ///
    /// Returns `OutOfRange` exactly where `p` is above the length of that view, and then nothing changed; and
    /// `OutOfMemory` where there is no room, and then the tree may be used no more.
    pub fn insert_local<G: Ledger>(
        &mut self,
        p: u64,
        content: C,
        props: &PropSet,
        stage: u64,
        steps: &mut Steps<G>,
    ) -> Result<(), TreeFault>
    where
        C: Drop,
        requires usable { IsTrue self.old.usable }
        requires made { self.old.made + length (C.units content) ≤ max_safe_integer }

        // The elements.
        ensures elements { let old = elements C.units C.by self.old.leaves in
            let added = new_elements (Local stage) (C.by content) (apply [] props.now) (C.units content) in
            OnOk result (elements C.units C.by self.new.leaves ≡ put (seen_in last_stage) no_run p added old) }
        ensures inside { OnOk result (p ≤ len (seen_in last_stage) (elements C.units C.by self.old.leaves)) }
        ensures refused { let old = elements C.units C.by self.old.leaves in
            IfErr result (IsRefused p (len (seen_in last_stage) old) self.old self.new) }

        // References keep their elements, leaves their nodes.
        ensures refs { let old = elements C.units C.by self.old.leaves in
            let place = put_place (seen_in last_stage) no_run p old in
            OnOk result (ChangesReferences (with_place (shifted_place place (length (C.units content)))) self.old.refs self.new.refs) }
        ensures nodes { OnOk result (Extends (ids self.old.leaves) (ids self.new.leaves)) }
        ensures rest { OnOk result (KeepsRest self.old self.new) }
        ensures made { OnOk result (self.new.made ≡ self.old.made + length (C.units content)) }
        ensures reads { steps.new ≤ steps.old + 9 * (self.old.depth + 1) }
    {
        match find_local(self.blocks.list(), p, steps) {
            Ok(found) => {
                let ins = Stamp::Local { stage };
                self.put(&found, false, content, ins, props, steps)
            }
            Err(e) => Err(TreeFault::OutOfRange { length: e.length }),
        }
    }

    /// Puts new elements in under number `seq` by the perspective's connection, directly after the `p`-th
    /// element that the perspective sees, but past the run of pending elements there.
    ///
    /// Returns `OutOfRange` exactly where `p` is above the length seen, and then nothing changed; and
    /// `OutOfMemory` where there is no room, and then the tree may be used no more.
    pub fn insert_remote<G: Ledger>(
        &mut self,
        p: u64,
        mut content: C,
        props: &PropSet,
        seq: u64,
        at: Perspective,
        steps: &mut Steps<G>,
    ) -> Result<(), TreeFault>
    where
        C: Drop,
        requires usable { IsTrue self.old.usable }
        requires floor { self.old.floor ≤ at.r }
        requires made { self.old.made + length (C.units content) ≤ max_safe_integer }

        // The elements.
        ensures elements { let old = elements C.units C.by self.old.leaves in
            let added = new_elements (Acked seq at.c) (C.author seq at.c) (apply [] props.now) (C.units content) in
            OnOk result (elements C.units C.by self.new.leaves ≡ put (seen_in (At at)) is_pending p added old) }
        ensures inside { OnOk result (p ≤ len (seen_in (At at)) (elements C.units C.by self.old.leaves)) }
        ensures refused { let old = elements C.units C.by self.old.leaves in
            IfErr result (IsRefused p (len (seen_in (At at)) old) self.old self.new) }

        // References keep their elements, leaves their nodes.
        ensures refs { let old = elements C.units C.by self.old.leaves in
            let place = put_place (seen_in (At at)) is_pending p old in
            OnOk result (ChangesReferences (with_place (shifted_place place (length (C.units content)))) self.old.refs self.new.refs) }
        ensures nodes { OnOk result (Extends (ids self.old.leaves) (ids self.new.leaves)) }
        ensures rest { OnOk result (KeepsRest self.old self.new) }
        ensures made { OnOk result (self.new.made ≡ self.old.made + length (C.units content)) }
        ensures reads { steps.new ≤ steps.old + 9 * (self.old.depth + 1) + pending_leaves self.old.leaves + 1 }
    {
        match find_seen_at(self.blocks.list(), p, at, steps) {
            Ok(found) => {
                content.stamped(seq, at.c);
                let ins = Stamp::Acked { seq, conn: at.c };
                self.put(&found, true, content, ins, props, steps)
            }
            Err(e) => Err(TreeFault::OutOfRange { length: e.length }),
        }
    }

    // Puts new elements in at a place that was found, or past the pending ones there.
    fn put<G: Ledger>(
        &mut self,
        found: &Found,
        past_pending: bool,
        content: C,
        ins: Stamp,
        props: &PropSet,
        steps: &mut Steps<G>,
    ) -> Result<(), TreeFault>
    where
        C: Drop,
        requires usable { IsTrue self.old.usable }
        requires held { IsInLeaf C.units self.old.leaves found.now.leaf found.now.offset }
        requires made { self.old.made + length (C.units content) ≤ max_safe_integer }

        // The place is that of p seen elements.
        ensures ok { let leaf = fresh_leaf content ins (apply [] props.now) in
            (view : LenView) (p : ℕ) → held_place C.units C.by self.old.leaves found.now.leaf found.now.offset
            ≡ place (seen_in view) p (elements C.units C.by self.old.leaves)
            → OnOk result (Puts C.units C.by (seen_in view) (passes past_pending) p leaf self.old self.new) }
        ensures err { IfErr result (λ e. e ≡ fault.OutOfMemory) }
        ensures unusable { OnErr result (self.new.usable ≡ false) }
        ensures reads { steps.new ≤ steps.old + pending_leaves self.old.leaves + 1 }
        ensures no_reads { past_pending ≡ false → steps.new ≡ steps.old }
    {
        let count = content.len();
        match insert_at(
            &mut self.blocks,
            self.alloc,
            found,
            past_pending,
            content,
            ins,
            props,
            steps,
        ) {
            Ok(()) => {
                self.made += count;
                Ok(())
            }
            Err(_) => {
                self.usable = false;
                Err(TreeFault::OutOfMemory)
            }
        }
    }
}
