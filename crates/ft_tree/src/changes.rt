//! How the elements of a tree are removed, changed and acknowledged.

ghost use Rattle.std.specs.Prelude.{◌≡◌, ◌≤◌, IsTrue, IfErr, All, OnOk, OnErr, false, map};
ghost use Rattle.ft_base.specs.declared.stamps.Stamp.TheVariants.{Acked, Local};
ghost use Rattle.ft_base.specs.Scan.{change_range, len};
ghost use Rattle.ft_block.specs.declared.leaves.LenView.TheVariants.{At};
ghost use Rattle.ft_block.specs.Leaves.{ids, last_stage};
ghost use Rattle.ft_props.specs.Overlay.{after_acked_changes, after_pending_changes};
ghost use Rattle.ft_tree_leaves.specs.Elements.{IsAboveChanges, IsLowestChange, acked_element, removed_stamps, seen_in, with_overlay, with_stamps};
ghost use Rattle.ft_tree_leaves.specs.LeafLists.{Extends, elements};
ghost use Rattle.ft_tree_leaves.specs.References.{ChangesReferences, KeepsReferences, slid_reference};
ghost use Rattle.ft_tree.specs.State.{IsRefused, KeepsRest};

use crate::faults::TreeFault;
use crate::tree::Tree;
use ft_base::{Datum, OutOfMemory, Perspective, Stamp, Steps};
use ft_block::LenView;
use ft_props::Changes;
use ft_tree_leaves::{Content, LeafChange};
use ft_tree_steps::RangeEdit;
use std::sync::ledger::Ledger;

impl<C: Content> Tree<C> {
    /// Marks each element that the local view sees from the `p`-th up to before the `q`-th as removed by a
    /// pending stage.
    ///
    /// Returns `OutOfRange` exactly where `q` is above the length of that view, and then nothing changed; and
    /// `OutOfMemory` where there is no room, and then the tree may be used no more.
    pub fn remove_local<G: Ledger>(
        &mut self,
        p: u64,
        q: u64,
        stage: u64,
        steps: &mut Steps<G>,
    ) -> Result<(), TreeFault>
    where
        C: Drop,
        requires usable { IsTrue self.old.usable }
        requires order { p ≤ q }

        // The elements.
        ensures elements { let old = elements C.units C.by self.old.leaves in
            let change = with_stamps (removed_stamps (Local stage)) in
            OnOk result (elements C.units C.by self.new.leaves ≡ change_range (seen_in last_stage) p q change old) }
        ensures inside { OnOk result (q ≤ len (seen_in last_stage) (elements C.units C.by self.old.leaves)) }
        ensures refused { let old = elements C.units C.by self.old.leaves in
            IfErr result (IsRefused q (len (seen_in last_stage) old) self.old self.new) }

        // References stay, leaves keep their nodes.
        ensures refs { OnOk result (KeepsReferences self.old.refs self.new.refs) }
        ensures nodes { OnOk result (Extends (ids self.old.leaves) (ids self.new.leaves)) }
        ensures rest { OnOk result (KeepsRest self.old self.new) }
        ensures made { OnOk result (self.new.made ≡ self.old.made) }
    {
        match self.start_local(p, q, steps) {
            Ok(found) => {
                let edit = RangeEdit::Remove(Stamp::Local { stage });
                self.edit(&found, p, q, LenView::Stage(u64::MAX), &edit)
            }
            Err(e) => Err(e),
        }
    }

    /// Gives a removal under number `seq` by the perspective's connection to each element that it sees from
    /// the `p`-th up to before the `q`-th. Then acknowledged references slide.
    ///
    /// Returns `OutOfRange` exactly where `q` is above the length seen, and then nothing changed; and
    /// `OutOfMemory` where there is no room, and then the tree may be used no more.
    pub fn remove_remote<G: Ledger>(
        &mut self,
        p: u64,
        q: u64,
        seq: u64,
        at: Perspective,
        steps: &mut Steps<G>,
    ) -> Result<(), TreeFault>
    where
        C: Drop,
        requires usable { IsTrue self.old.usable }
        requires order { p ≤ q }
        requires floor { self.old.floor ≤ at.r }

        // The elements.
        ensures elements { let old = elements C.units C.by self.old.leaves in
            let change = with_stamps (removed_stamps (Acked seq at.c)) in
            OnOk result (elements C.units C.by self.new.leaves ≡ change_range (seen_in (At at)) p q change old) }
        ensures inside { OnOk result (q ≤ len (seen_in (At at)) (elements C.units C.by self.old.leaves)) }
        ensures refused { let old = elements C.units C.by self.old.leaves in
            IfErr result (IsRefused q (len (seen_in (At at)) old) self.old self.new) }

        // Acknowledged references slide, leaves keep their nodes.
        ensures refs { let new = elements C.units C.by self.new.leaves in
            OnOk result (ChangesReferences (slid_reference new) self.old.refs self.new.refs) }
        ensures nodes { OnOk result (Extends (ids self.old.leaves) (ids self.new.leaves)) }
        ensures rest { OnOk result (KeepsRest self.old self.new) }
        ensures made { OnOk result (self.new.made ≡ self.old.made) }
    {
        let found = self.start_at(p, q, at, steps)?;
        let edit = RangeEdit::Remove(Stamp::Acked { seq, conn: at.c });
        self.edit(&found, p, q, LenView::At(at), &edit)?;
        self.slide();
        Ok(())
    }

    /// Adds changes of a pending stage, which is above all that are pending, to each element that the local
    /// view sees from the `p`-th up to before the `q`-th.
    ///
    /// Returns `OutOfRange` exactly where `q` is above the length of that view, and then nothing changed; and
    /// `OutOfMemory` where there is no room, and then the tree may be used no more.
    pub fn annotate_local<G: Ledger>(
        &mut self,
        p: u64,
        q: u64,
        set: &Changes,
        stage: u64,
        steps: &mut Steps<G>,
    ) -> Result<(), TreeFault>
    where
        C: Drop,
        requires usable { IsTrue self.old.usable }
        requires order { p ≤ q }
        requires stage { All (λ e. IsAboveChanges stage e.overlay) (elements C.units C.by self.old.leaves) }

        // The elements.
        ensures elements { let old = elements C.units C.by self.old.leaves in
            let change = with_overlay (after_pending_changes stage set.now) in
            OnOk result (elements C.units C.by self.new.leaves ≡ change_range (seen_in last_stage) p q change old) }
        ensures inside { OnOk result (q ≤ len (seen_in last_stage) (elements C.units C.by self.old.leaves)) }
        ensures refused { let old = elements C.units C.by self.old.leaves in
            IfErr result (IsRefused q (len (seen_in last_stage) old) self.old self.new) }

        // References stay, leaves keep their nodes.
        ensures refs { OnOk result (KeepsReferences self.old.refs self.new.refs) }
        ensures nodes { OnOk result (Extends (ids self.old.leaves) (ids self.new.leaves)) }
        ensures rest { OnOk result (KeepsRest self.old self.new) }
        ensures made { OnOk result (self.new.made ≡ self.old.made) }
    {
        match self.start_local(p, q, steps) {
            Ok(found) => match set.copy() {
                Ok(copy) => {
                    let edit = RangeEdit::Change(LeafChange::PushPending(stage, copy));
                    self.edit(&found, p, q, LenView::Stage(u64::MAX), &edit)
                }
                Err(_) => {
                    self.usable = false;
                    Err(TreeFault::OutOfMemory)
                }
            },
            Err(e) => Err(e),
        }
    }

    /// Makes changes of the acknowledged properties of each element that the perspective sees from the
    /// `p`-th up to before the `q`-th. The number of their message, `seq`, is kept nowhere.
    ///
    /// Returns `OutOfRange` exactly where `q` is above the length seen, and then nothing changed; and
    /// `OutOfMemory` where there is no room, and then the tree may be used no more.
    pub fn annotate_remote<G: Ledger>(
        &mut self,
        p: u64,
        q: u64,
        set: &Changes,
        _seq: u64,
        at: Perspective,
        steps: &mut Steps<G>,
    ) -> Result<(), TreeFault>
    where
        C: Drop,
        requires usable { IsTrue self.old.usable }
        requires order { p ≤ q }
        requires floor { self.old.floor ≤ at.r }

        // The elements.
        ensures elements { let old = elements C.units C.by self.old.leaves in
            let change = with_overlay (after_acked_changes set.now) in
            OnOk result (elements C.units C.by self.new.leaves ≡ change_range (seen_in (At at)) p q change old) }
        ensures inside { OnOk result (q ≤ len (seen_in (At at)) (elements C.units C.by self.old.leaves)) }
        ensures refused { let old = elements C.units C.by self.old.leaves in
            IfErr result (IsRefused q (len (seen_in (At at)) old) self.old self.new) }

        // References stay, leaves keep their nodes.
        ensures refs { OnOk result (KeepsReferences self.old.refs self.new.refs) }
        ensures nodes { OnOk result (Extends (ids self.old.leaves) (ids self.new.leaves)) }
        ensures rest { OnOk result (KeepsRest self.old self.new) }
        ensures made { OnOk result (self.new.made ≡ self.old.made) }
    {
        match self.start_at(p, q, at, steps) {
            Ok(found) => match set.copy() {
                Ok(copy) => {
                    let edit = RangeEdit::Change(LeafChange::SetAcked(copy));
                    self.edit(&found, p, q, LenView::At(at), &edit)
                }
                Err(_) => {
                    self.usable = false;
                    Err(TreeFault::OutOfMemory)
                }
            },
            Err(e) => Err(e),
        }
    }

    /// Acknowledges a stage under number `seq` of connection `conn`. No position is searched again. Then
    /// acknowledged references slide.
    ///
    /// Returns `OutOfMemory` where there is no room for it, and then the tree may be used no more.
    pub fn ack(&mut self, stage: u64, seq: u64, conn: u32) -> Result<(), OutOfMemory>
        requires usable { IsTrue self.old.usable }
        requires lowest { All (λ e. IsLowestChange stage e.overlay) (elements C.units C.by self.old.leaves) }

        // The elements.
        ensures elements { let old = elements C.units C.by self.old.leaves in
            OnOk result (elements C.units C.by self.new.leaves ≡ map (acked_element stage seq conn (C.author seq conn)) old) }

        // Acknowledged references slide, leaves keep their nodes.
        ensures refs { let new = elements C.units C.by self.new.leaves in
            OnOk result (ChangesReferences (slid_reference new) self.old.refs self.new.refs) }
        ensures nodes { OnOk result (ids self.new.leaves ≡ ids self.old.leaves) }
        ensures rest { OnOk result (KeepsRest self.old self.new) }
        ensures made { OnOk result (self.new.made ≡ self.old.made) }
        ensures err { OnErr result (self.new.usable ≡ false) }
    {
        match self.blocks.ack(self.alloc, stage, seq, conn) {
            Ok(()) => {
                self.slide();
                Ok(())
            }
            Err(e) => {
                self.usable = false;
                Err(e)
            }
        }
    }
}
