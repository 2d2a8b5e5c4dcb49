//! The client's own edits of a shared text.

ghost use Rattle.std.specs.Prelude.{◌≡◌, ◌≢◌, ◌+◌, ◌*◌, ◌-◌, ◌<◌, ◌≤◌, ◌^◌, ◌++◌, ◌∷◌, List, [], All, not, IfErr, IsTrue, OnOk, is_ok, length, map, true};
ghost use Rattle.std.specs.List.{AllByRecursion};
ghost use Rattle.ft_base.specs.Scan.{len};
ghost use Rattle.ft_block.specs.declared.leaves.LenView.TheVariants.{Stage as at_stage};
ghost use Rattle.ft_changes.specs.Listeners.{heard};
ghost use Rattle.ft_changes.specs.Told.{told_locals};
ghost use Rattle.ft_interval.specs.State.{StandsOn};
ghost use Rattle.ft_interval_store.specs.Intervals.{name_in};
ghost use Rattle.ft_interval_store.specs.State.{IsAboveAll, IsAsBefore, IsRefusedEdit, Pushes, is_add, is_interval_operation, is_shown, placed, text_elements};
ghost use Rattle.ft_tree_leaves.specs.Elements.{IsAboveChanges, seen_in};
ghost use Rattle.ft_msg.specs.Client.{local_sub_operations};
ghost use Rattle.ft_op.specs.declared.operations.TextOp.TheVariants.{One};
ghost use Rattle.ft_op.specs.Document.{Document};
ghost use Rattle.ft_op.specs.Operation.{OnIntervals, OnText, text_sub_operations};
ghost use Rattle.ft_op.specs.Stages.{Stage};
ghost use Rattle.ft_op.specs.WellFormed.{IsWellFormedBase, IsWellFormedText};
ghost use Rattle.ft_props.specs.Properties.{max_safe_integer};
ghost use Rattle.ft_text.specs.Lengths.{count_after_all, put_in_by, put_in_by_all};
ghost use Rattle.ft_string.specs.Calls.{AnswersEdit, Leaves};
ghost use Rattle.ft_string.specs.Edits.{IsShort, edit_fault_of, is_refusal, seen_count};
ghost use Rattle.ft_string.specs.Holds.{HoldsSome, HoldsText, IsTextSound};
ghost use Rattle.ft_string.specs.Parts.{TakesOp, TakesOps, noted};
ghost use Rattle.ft_string.specs.State.{KeepsRest};
ghost use Rattle.ft_string.specs.Told.{told_of_all_own, told_of_own};

use crate::pending::PendingOp;
use crate::strings::SharedString;
use crate::telling::tell_own;
use ft_arena::NodeId;
use ft_base::moved::push_behind;
use ft_base::{Datum, OutOfMemory, Steps};
use ft_block::LenView;
use ft_changes::Listener;
use ft_interval::Collections;
use ft_interval_store::IntervalFault;
use ft_msg::EditFault;
use ft_op::{BaseOp, TextOp};
use ft_text::contents::insert_local;
use ft_text::lengths::{have_room, put_in_by_all, test_all};
use ft_tree::{TextContent, Tree, TreeFault};
use std::collections::VecDeque;
use std::slice;
use std::sync::ledger::Ledger;

// Makes an operation at a pending stage, which is above all pending ones, in a tree that has the elements for it.
//
// Returns no error but `OutOfMemory`.
fn take_op<G: Ledger>(
    tree: &mut Tree<TextContent>,
    op: &BaseOp,
    stage: u64,
    steps: &mut Steps<G>,
) -> Result<(), TreeFault>
    requires usable { IsTrue tree.old.usable }
    requires formed { IsWellFormedBase op.now }
    requires above { All (λ e. IsAboveChanges stage e.overlay) (text_elements tree.old) }
    requires made { tree.old.made + put_in_by op.now ≤ max_safe_integer }
    ensures ok { OnOk result (TakesOp stage op.now tree.old tree.new) }
    ensures reads { IsShort (One op.now) → steps.new ≤ steps.old + 9 * (tree.old.depth + 1) }
{
    match op {
        BaseOp::Insert { pos, seg, props } => insert_local(tree, *pos, seg, props, stage, steps),
        BaseOp::Remove { pos1, pos2 } => tree.remove_local(*pos1, *pos2, stage, steps),
        BaseOp::Annotate {
            pos1,
            pos2,
            changes,
        } => tree.annotate_local(*pos1, *pos2, changes, stage, steps),
    }
}

// Notes an operation as a pending one of that stage, behind the others.
fn note(pending: &mut VecDeque<PendingOp>, op: &BaseOp, stage: u64) -> Result<(), OutOfMemory>
    ensures { OnOk result (pending.new.items ≡ pending.old.items ++ record { stage = stage; op = op.now } ∷ []) }
{
    let op = op.copy()?;
    push_behind(pending, PendingOp { stage, op })
}

// Makes an operation at a pending stage, and notes it. The listener hears how the shown elements change.
fn take_noted<G: Ledger>(
    tree: &mut Tree<TextContent>,
    pending: &mut VecDeque<PendingOp>,
    op: &BaseOp,
    stage: u64,
    listener: &mut Listener,
    steps: &mut Steps<G>,
) -> Result<(), OutOfMemory>
    requires usable { IsTrue tree.old.usable }
    requires formed { IsWellFormedBase op.now }
    requires above { All (λ e. IsAboveChanges stage e.overlay) (text_elements tree.old) }
    requires made { tree.old.made + put_in_by op.now ≤ max_safe_integer }
    ensures taken { OnOk result (TakesOp stage op.now tree.old tree.new) }
    ensures noted { OnOk result (pending.new.items ≡ pending.old.items ++ record { stage = stage; op = op.now } ∷ []) }
    ensures reads { IsShort (One op.now) → steps.new ≤ steps.old + 9 * (tree.old.depth + 1) }
    ensures told { OnOk result (listener.new ≡ heard listener.old (told_of_own stage op.now (text_elements tree.old))) }
{
    tell_own(tree, op, listener)?;
    match take_op(tree, op, stage, steps) {
        Ok(()) => note(pending, op, stage),
        Err(_) => Err(OutOfMemory),
    }
}

// Makes operations one after another, each at the next stage, and notes them. The listener hears of each before the next.
fn take_all<G: Ledger>(
    tree: &mut Tree<TextContent>,
    pending: &mut VecDeque<PendingOp>,
    ops: &[BaseOp],
    first: u64,
    listener: &mut Listener,
    steps: &mut Steps<G>,
) -> Result<(), OutOfMemory>
    requires usable { IsTrue tree.old.usable }
    requires formed { AllByRecursion IsWellFormedBase ops.now }
    requires above { All (λ e. IsAboveChanges first e.overlay) (text_elements tree.old) }
    requires made { tree.old.made + put_in_by_all ops.now ≤ max_safe_integer }
    requires stages { first + length ops.now < 2 ^ 64 }
    ensures taken { OnOk result (TakesOps first ops.now tree.old tree.new) }
    ensures noted { OnOk result (pending.new.items ≡ pending.old.items ++ noted first ops.now) }
    ensures reads { (op : BaseOp) → ops.now ≡ op ∷ [] → IsShort (One op) → steps.new ≤ steps.old + 9 * (tree.old.depth + 1) }
    ensures told { OnOk result (listener.new ≡ heard listener.old (told_of_all_own first ops.now (text_elements tree.old))) }
{
    let mut stage = first;
    for op in ops {
        take_noted(tree, pending, op, stage, listener, steps)?;
        stage += 1;
    }
    Ok(())
}

// Adds a pending operation on an interval.
fn take_interval(
    intervals: &mut Collections,
    tree: &mut Tree<TextContent>,
    op: &TextOp,
    stage: u64,
) -> Result<(), IntervalFault>
    requires usable { IsTrue tree.old.usable }
    requires stands { StandsOn tree.old intervals.old }
    requires kind { is_interval_operation op.now ≡ true }
    requires some { 1 ≤ stage }
    requires above { IsAboveAll stage intervals.old.state }
    ensures taken { OnOk result (Pushes (seen_in (at_stage stage)) (text_elements tree.old) stage op.now intervals.old.state intervals.new.state tree.old tree.new) }
    ensures name { OnOk result (is_shown (text_elements tree.old) (name_in op.now) (placed tree.old.refs intervals.old.state) ≡ not (is_add op.now)) }
    ensures refused { let shown = is_shown (text_elements tree.old) (name_in op.now) (placed tree.old.refs intervals.old.state) in
        let length = len (seen_in (at_stage stage)) (text_elements tree.old) in
        IfErr result (IsRefusedEdit shown length op.now (IsAsBefore intervals.old.state intervals.new.state tree.old tree.new)) }
    ensures indexes { intervals.new.indexes ≡ intervals.old.indexes }
    ensures stands { OnOk result (StandsOn tree.new intervals.new) }
{
    match op {
        TextOp::IntervalAdd { .. } => intervals.add_local(tree, op, stage),
        TextOp::IntervalChange { .. } => intervals.change_local(tree, op, stage),
        TextOp::IntervalDelete { .. } => intervals.delete_local(tree, op, stage),
        TextOp::One(_) | TextOp::Group(_) => unreachable!(),
    }
}

// Whether it is a refusal, and not `OutOfMemory`.
fn is_refusal(fault: &IntervalFault) -> bool
    ensures { result ≡ is_refusal fault.now }
{
    match fault {
        IntervalFault::IdInUse | IntervalFault::NoSuchInterval | IntervalFault::OutOfRange { .. } =>
            true,
        IntervalFault::OutOfMemory => false,
    }
}

// The refusal as that of an edit.
fn edit_fault(fault: IntervalFault) -> EditFault
    ensures { result ≡ edit_fault_of fault }
{
    match fault {
        IntervalFault::IdInUse => EditFault::IdInUse,
        IntervalFault::NoSuchInterval => EditFault::NoSuchInterval,
        IntervalFault::OutOfRange { length } => EditFault::OutOfRange { length },
        IntervalFault::OutOfMemory => EditFault::OutOfMemory,
    }
}

impl SharedString {
    /// Makes an edit as pending stages from `first` on, which is above all pending ones, and returns how many it took. A group is
    /// refused as a whole.
    ///
    /// Returns `IdInUse` exactly where a new interval's label has the id in the view, `NoSuchInterval` exactly where that of a
    /// changed or deleted one doesn't have it, and else `OutOfRange` exactly where a position isn't in the list as the
    /// operations before it leave it, and then nothing changed. Returns `OutOfMemory` where there is no room, or numbers of
    /// stages or elements would pass their limits, and then the text may be used no more.
    pub fn edit<G: Ledger>(
        &mut self,
        op: &TextOp,
        first: u64,
        steps: &mut Steps<G>,
    ) -> Result<u64, EditFault>
        requires usable { IsTrue self.old.usable }
        requires none_given { self.old.given ≡ 0 }
        requires formed { IsWellFormedText op.now }
        requires some { 1 ≤ first }
        requires held { HoldsSome (first - 1) self.old }
        ensures answers { (doc : Document) → (stages : List Stage) → IsTextSound (first - 1) doc stages → HoldsText self.old doc stages
            → AnswersEdit self.new stages (local_sub_operations doc stages first (text_sub_operations op.now)) result }
        ensures leaves { IfErr result (Leaves self.old self.new) }
        ensures rest { OnOk result (KeepsRest self.old self.new) }
        ensures reads { IsShort op.now → steps.new ≤ steps.old + 9 * (self.old.depth + 1) }
        ensures depth { 4 ^ self.old.depth ≤ length self.old.elements + 1 }
    {
        let mut nobody = Listener::nobody(self.allocator());
        self.edit_telling(op, first, &mut nobody, steps)
    }

    /// As `edit`; the listener hears how the shown elements change with each stage. After a refusal nothing is said of what it
    /// heard.
    pub fn edit_telling<G: Ledger>(
        &mut self,
        op: &TextOp,
        first: u64,
        listener: &mut Listener,
        steps: &mut Steps<G>,
    ) -> Result<u64, EditFault>
        requires usable { IsTrue self.old.usable }
        requires none_given { self.old.given ≡ 0 }
        requires formed { IsWellFormedText op.now }
        requires some { 1 ≤ first }
        requires held { HoldsSome (first - 1) self.old }
        ensures answers { (doc : Document) → (stages : List Stage) → IsTextSound (first - 1) doc stages → HoldsText self.old doc stages
            → AnswersEdit self.new stages (local_sub_operations doc stages first (text_sub_operations op.now)) result }
        ensures leaves { IfErr result (Leaves self.old self.new) }
        ensures rest { OnOk result (KeepsRest self.old self.new) }
        ensures reads { IsShort op.now → steps.new ≤ steps.old + 9 * (self.old.depth + 1) }
        ensures depth { 4 ^ self.old.depth ≤ length self.old.elements + 1 }
        ensures told { (doc : Document) → (stages : List Stage) → IsTextSound (first - 1) doc stages → HoldsText self.old doc stages
            → OnOk result (listener.new ≡ heard listener.old (told_locals doc stages first (text_sub_operations op.now))) }
    {
        // How deep a search goes is read off its contract.
        let _leaf = self.first_leaf();
        match op {
            TextOp::One(op) => self.edit_elements(slice::from_ref(op), first, listener, steps),
            TextOp::Group(ops) => self.edit_elements(ops.as_slice(), first, listener, steps),
            TextOp::IntervalAdd { .. }
            | TextOp::IntervalChange { .. }
            | TextOp::IntervalDelete { .. } => self.edit_interval(op, first),
        }
    }

    // The first leaf, if there is one; its contract tells how deep a search for an element goes at most.
    fn first_leaf(&self) -> Option<NodeId>
        requires { IsTrue self.now.usable }
        ensures { 4 ^ self.now.depth ≤ length self.now.elements + 1 }
    {
        self.tree.first_leaf()
    }

    // Tests the operations by lengths alone.
    //
    // Returns `OutOfRange` with the length before the first that is out of range, and `OutOfMemory` where numbers of stages or
    // elements would pass their limits.
    fn test(&self, ops: &[BaseOp], first: u64) -> Result<(), EditFault>
        requires usable { IsTrue self.now.usable }
        ensures fits { OnOk result (is_ok (count_after_all (seen_count self.now) ops.now) ≡ true) }
        ensures stages { OnOk result (first + length ops.now < 2 ^ 64) }
        ensures made { OnOk result (self.now.made + put_in_by_all ops.now ≤ max_safe_integer) }
        ensures refused { IfErr result (λ fault. fault ≢ EditFault.OutOfMemory → count_after_all (seen_count self.now) ops.now ≡ Err fault) }
    {
        test_all(self.tree.length(LenView::Stage(u64::MAX)), ops)?;
        let Ok(more) = put_in_by_all(ops) else {
            return Err(EditFault::OutOfMemory);
        };
        if !have_room(self.tree.made(), more) || !have_stages(first, ops.len()) {
            return Err(EditFault::OutOfMemory);
        }
        Ok(())
    }

    // Makes operations on elements as pending stages from `first` on, and returns how many they are.
    fn edit_elements<G: Ledger>(
        &mut self,
        ops: &[BaseOp],
        first: u64,
        listener: &mut Listener,
        steps: &mut Steps<G>,
    ) -> Result<u64, EditFault>
        requires usable { IsTrue self.old.usable }
        requires none_given { self.old.given ≡ 0 }
        requires formed { AllByRecursion IsWellFormedBase ops.now }
        requires some { 1 ≤ first }
        requires held { HoldsSome (first - 1) self.old }
        ensures answers { (doc : Document) → (stages : List Stage) → IsTextSound (first - 1) doc stages → HoldsText self.old doc stages
            → AnswersEdit self.new stages (local_sub_operations doc stages first (map (λ op. OnText op) ops.now)) result }
        ensures leaves { IfErr result (Leaves self.old self.new) }
        ensures rest { OnOk result (KeepsRest self.old self.new) }
        ensures reads { (op : BaseOp) → ops.now ≡ op ∷ [] → IsShort (One op) → steps.new ≤ steps.old + 9 * (self.old.depth + 1) }
        ensures told { (doc : Document) → (stages : List Stage) → IsTextSound (first - 1) doc stages → HoldsText self.old doc stages
            → OnOk result (listener.new ≡ heard listener.old (told_locals doc stages first (map (λ op. OnText op) ops.now))) }
    {
        match self.test(ops, first) {
            Ok(()) => {}
            Err(EditFault::OutOfMemory) => {
                self.spoil();
                return Err(EditFault::OutOfMemory);
            }
            Err(fault) => return Err(fault),
        }
        self.usable = false;
        match take_all(&mut self.tree, &mut self.ops, ops, first, listener, steps) {
            Ok(()) => {
                self.usable = true;
                Ok(ops.len() as u64)
            }
            Err(_) => Err(EditFault::OutOfMemory),
        }
    }

    // Makes an operation on intervals as the pending stage `first`.
    fn edit_interval(&mut self, op: &TextOp, first: u64) -> Result<u64, EditFault>
        requires usable { IsTrue self.old.usable }
        requires none_given { self.old.given ≡ 0 }
        requires kind { is_interval_operation op.now ≡ true }
        requires some { 1 ≤ first }
        requires held { HoldsSome (first - 1) self.old }
        ensures answers { (doc : Document) → (stages : List Stage) → IsTextSound (first - 1) doc stages → HoldsText self.old doc stages
            → AnswersEdit self.new stages (local_sub_operations doc stages first (OnIntervals op.now ∷ [])) result }
        ensures leaves { IfErr result (Leaves self.old self.new) }
        ensures rest { OnOk result (KeepsRest self.old self.new) }
    {
        // That names rise is read off its contract.
        let _first = self.intervals.first_stage();
        match take_interval(&mut self.intervals, &mut self.tree, op, first) {
            Ok(()) => Ok(1),
            Err(fault) => {
                self.usable = is_refusal(&fault);
                Err(edit_fault(fault))
            }
        }
    }
}

// Whether there are so many numbers for stages from `first` on.
fn have_stages(first: u64, count: usize) -> bool
    ensures { IsTrue result → first + count < 2 ^ 64 }
{
    first.checked_add(count as u64).is_some()
}
