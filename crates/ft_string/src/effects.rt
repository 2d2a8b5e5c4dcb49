//! What operations of messages of other clients make of a shared text.

ghost use Rattle.std.specs.Prelude.{◌≡◌, ℕ, ◌+◌, ◌≤◌, ◌∷◌, [], List, true, IfOk, IsTrue, OnErr, OnOk, false, map};
ghost use Rattle.std.specs.List.{AllByRecursion};
ghost use Rattle.ft_changes.specs.Listeners.{heard};
ghost use Rattle.ft_changes.specs.Told.{told_sub_operations};
ghost use Rattle.ft_interval_store.specs.State.{is_interval_operation, text_elements};
ghost use Rattle.ft_op.specs.Document.{Document, effects};
ghost use Rattle.ft_op.specs.Operation.{OnIntervals, OnText, text_sub_operations};
ghost use Rattle.ft_op.specs.Stages.{Stage};
ghost use Rattle.ft_op.specs.WellFormed.{IsWellFormedBase, IsWellFormedText};
ghost use Rattle.ft_props.specs.Properties.{max_safe_integer};
ghost use Rattle.ft_text.specs.Lengths.{put_in_by};
ghost use Rattle.ft_string.specs.Calls.{IsApplied};
ghost use Rattle.ft_string.specs.Holds.{HoldsText, IsTextSound};
ghost use Rattle.ft_string.specs.Parts.{AppliesOp, TriesOp, TriesOps};
ghost use Rattle.ft_string.specs.State.{KeepsRest};
ghost use Rattle.ft_string.specs.Told.{told_of_op, told_of_ops};

use crate::strings::SharedString;
use crate::telling::tell_op;
use ft_base::{OutOfMemory, Perspective, Steps};
use ft_block::LenView;
use ft_changes::Listener;
use ft_op::{BaseOp, TextOp};
use ft_text::contents::insert_remote;
use ft_text::lengths::{end_of, have_room, put_in_by, sum};
use ft_tree::{TextContent, Tree, TreeFault};
use std::slice;
use std::sync::ledger::Ledger;

// Applies an operation under number `seq` to a tree in which the perspective sees the elements for it. Removals let
// acknowledged references slide.
//
// Returns no error but `OutOfMemory`.
fn apply_op<G: Ledger>(
    tree: &mut Tree<TextContent>,
    op: &BaseOp,
    seq: u64,
    at: Perspective,
    steps: &mut Steps<G>,
) -> Result<(), TreeFault>
    requires usable { IsTrue tree.old.usable }
    requires formed { IsWellFormedBase op.now }
    requires floor { tree.old.floor ≤ at.r }
    requires made { tree.old.made + put_in_by op.now ≤ max_safe_integer }
    ensures { OnOk result (AppliesOp seq at op.now tree.old tree.new) }
{
    match op {
        BaseOp::Insert { pos, seg, props } => {
            insert_remote(tree, *pos, seg, props, seq, at, steps)
        }
        BaseOp::Remove { pos1, pos2 } => tree.remove_remote(*pos1, *pos2, seq, at, steps),
        BaseOp::Annotate {
            pos1,
            pos2,
            changes,
        } => tree.annotate_remote(*pos1, *pos2, changes, seq, at, steps),
    }
}

// Applies an operation under number `seq`, if the perspective sees the elements for it, and returns how many it skipped: one,
// where it doesn't. The listener hears how the shown elements change.
//
// Returns `OutOfMemory` where there is no room for it, or the number of elements would pass its limit.
fn try_op<G: Ledger>(
    tree: &mut Tree<TextContent>,
    op: &BaseOp,
    seq: u64,
    at: Perspective,
    listener: &mut Listener,
    steps: &mut Steps<G>,
) -> Result<u64, OutOfMemory>
    requires usable { IsTrue tree.old.usable }
    requires formed { IsWellFormedBase op.now }
    requires floor { tree.old.floor ≤ at.r }
    ensures tries { IfOk result (λ skipped. TriesOp seq at op.now skipped tree.old tree.new) }
    ensures one { IfOk result (λ skipped. skipped ≤ 1) }
    ensures told { OnOk result (listener.new ≡ heard listener.old (told_of_op at op.now (text_elements tree.old))) }
{
    if tree.length(LenView::At(at)) < end_of(op) {
        return Ok(1);
    }
    if !have_room(tree.made(), put_in_by(op)) {
        return Err(OutOfMemory);
    }
    tell_op(tree, op, at, listener)?;
    match apply_op(tree, op, seq, at, steps) {
        Ok(()) => Ok(0),
        Err(_) => Err(OutOfMemory),
    }
}

// Applies operations under number `seq` one after another, and returns how many were out of range. The listener hears of each
// before the next.
//
// Returns `OutOfMemory` where there is no room for them, or the number of elements would pass its limit.
fn try_all<G: Ledger>(
    tree: &mut Tree<TextContent>,
    ops: &[BaseOp],
    seq: u64,
    at: Perspective,
    listener: &mut Listener,
    steps: &mut Steps<G>,
) -> Result<u64, OutOfMemory>
    requires usable { IsTrue tree.old.usable }
    requires formed { AllByRecursion IsWellFormedBase ops.now }
    requires floor { tree.old.floor ≤ at.r }
    ensures tries { IfOk result (λ skipped. TriesOps seq at ops.now skipped tree.old tree.new) }
    ensures told { OnOk result (listener.new ≡ heard listener.old (told_of_ops seq at ops.now (text_elements tree.old))) }
{
    let mut skipped: u64 = 0;
    for op in ops {
        let more = try_op(tree, op, seq, at, listener, steps)?;
        skipped = sum(skipped, more)?;
    }
    Ok(skipped)
}

impl SharedString {
    /// Applies an operation of a message of another client under number `seq` by the perspective's connection, and returns how
    /// many of its sub-operations were out of range.
    ///
    /// Returns `OutOfMemory` where there is no room for what it makes, or the number of elements would pass its limit, and then
    /// the text may be used no more.
    pub fn apply<G: Ledger>(
        &mut self,
        op: &TextOp,
        seq: u64,
        at: Perspective,
        steps: &mut Steps<G>,
    ) -> Result<u64, OutOfMemory>
        requires usable { IsTrue self.old.usable }
        requires none_given { self.old.given ≡ 0 }
        requires formed { IsWellFormedText op.now }
        requires floor { self.old.floor ≤ at.r }
        ensures applied { (last : ℕ) → (doc : Document) → (stages : List Stage) → IsTextSound last doc stages → HoldsText self.old doc stages
            → IfOk result (IsApplied self.new doc (effects doc seq at.c at.r (text_sub_operations op.now)) stages) }
        ensures rest { OnOk result (KeepsRest self.old self.new) }
        ensures err { OnErr result (self.new.usable ≡ false) }
    {
        let mut nobody = Listener::nobody(self.allocator());
        self.apply_telling(op, seq, at, &mut nobody, steps)
    }

    /// As `apply`; the listener hears how the shown elements change with each sub-operation.
    pub fn apply_telling<G: Ledger>(
        &mut self,
        op: &TextOp,
        seq: u64,
        at: Perspective,
        listener: &mut Listener,
        steps: &mut Steps<G>,
    ) -> Result<u64, OutOfMemory>
        requires usable { IsTrue self.old.usable }
        requires none_given { self.old.given ≡ 0 }
        requires formed { IsWellFormedText op.now }
        requires floor { self.old.floor ≤ at.r }
        ensures applied { (last : ℕ) → (doc : Document) → (stages : List Stage) → IsTextSound last doc stages → HoldsText self.old doc stages
            → IfOk result (IsApplied self.new doc (effects doc seq at.c at.r (text_sub_operations op.now)) stages) }
        ensures rest { OnOk result (KeepsRest self.old self.new) }
        ensures err { OnErr result (self.new.usable ≡ false) }
        ensures told { (last : ℕ) → (doc : Document) → (stages : List Stage) → IsTextSound last doc stages → HoldsText self.old doc stages
            → OnOk result (listener.new ≡ heard listener.old (told_sub_operations last doc seq at.c at.r (text_sub_operations op.now))) }
    {
        match op {
            TextOp::One(op) => {
                self.apply_to_elements(slice::from_ref(op), seq, at, listener, steps)
            }
            TextOp::Group(ops) => {
                self.apply_to_elements(ops.as_slice(), seq, at, listener, steps)
            }
            TextOp::IntervalAdd { .. }
            | TextOp::IntervalChange { .. }
            | TextOp::IntervalDelete { .. } => self.apply_to_intervals(op, seq, at),
        }
    }

    // The same for operations on elements.
    fn apply_to_elements<G: Ledger>(
        &mut self,
        ops: &[BaseOp],
        seq: u64,
        at: Perspective,
        listener: &mut Listener,
        steps: &mut Steps<G>,
    ) -> Result<u64, OutOfMemory>
        requires usable { IsTrue self.old.usable }
        requires formed { AllByRecursion IsWellFormedBase ops.now }
        requires floor { self.old.floor ≤ at.r }
        ensures applied { (last : ℕ) → (doc : Document) → (stages : List Stage) → IsTextSound last doc stages → HoldsText self.old doc stages
            → IfOk result (IsApplied self.new doc (effects doc seq at.c at.r (map (λ op. OnText op) ops.now)) stages) }
        ensures rest { OnOk result (KeepsRest self.old self.new) }
        ensures err { OnErr result (self.new.usable ≡ false) }
        ensures told { (last : ℕ) → (doc : Document) → (stages : List Stage) → IsTextSound last doc stages → HoldsText self.old doc stages
            → OnOk result (listener.new ≡ heard listener.old (told_sub_operations last doc seq at.c at.r (map (λ op. OnText op) ops.now))) }
    {
        self.usable = false;
        let skipped = try_all(&mut self.tree, ops, seq, at, listener, steps)?;
        self.usable = true;
        Ok(skipped)
    }

    // The same for an operation on an interval.
    fn apply_to_intervals(
        &mut self,
        op: &TextOp,
        seq: u64,
        at: Perspective,
    ) -> Result<u64, OutOfMemory>
        requires usable { IsTrue self.old.usable }
        requires kind { is_interval_operation op.now ≡ true }
        requires floor { self.old.floor ≤ at.r }
        ensures applied { (last : ℕ) → (doc : Document) → (stages : List Stage) → IsTextSound last doc stages → HoldsText self.old doc stages
            → IfOk result (IsApplied self.new doc (effects doc seq at.c at.r (OnIntervals op.now ∷ [])) stages) }
        ensures rest { OnOk result (KeepsRest self.old self.new) }
        ensures err { OnErr result (self.new.usable ≡ false) }
    {
        // That names rise is read off its contract.
        let _first = self.intervals.first_stage();
        self.usable = false;
        let fits = self.intervals.apply(&mut self.tree, op, at)?;
        self.usable = true;
        if fits { Ok(0) } else { Ok(1) }
    }
}
