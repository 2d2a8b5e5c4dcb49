//! Intervals with what is pending on them.

ghost use Rattle.std.specs.Prelude.{◌≡◌, ◌≤◌, ◌||◌, ℕ, List, All, [], IfSome, IsSome, Some, is_some, not, IsTrue, IfOk, IfErr, OnErr, OnOk, true, false, filter, map, option_copied, option_map};
ghost use Rattle.std.specs.Ordering.{is_eq};
ghost use Rattle.std.specs.List.{list_any};
ghost use Rattle.ft_base.specs.Scan.{len};
ghost use Rattle.ft_block.specs.declared.leaves.LenView.TheVariants.{At, Stage};
ghost use Rattle.ft_tree_leaves.specs.declared.text.TextContent.{TextContent};
ghost use Rattle.ft_tree_leaves.specs.Elements.{seen_in};
ghost use Rattle.ft_tree.specs.State.{TreeState};
ghost use Rattle.ft_op.specs.Document.{ends_of, given_ends_fit};
ghost use Rattle.ft_interval_store.specs.declared.faults.IntervalFault.TheVariants as fault;
ghost use Rattle.ft_interval_store.specs.declared.intervals.Interval.{Interval};
ghost use Rattle.ft_interval_store.specs.Ends.{map_ends, places_of_given, slid_end};
ghost use Rattle.ft_interval_store.specs.Gathered.{Gathers, IsPartOf, is_on_any};
ghost use Rattle.ft_interval_store.specs.Intervals.{NamesRise, interval_of, name_cmp, name_in, place_of_operation};
ghost use Rattle.ft_interval_store.specs.Named.{is_operation_on, name_of_record};
ghost use Rattle.ft_interval_store.specs.Shown.{last, numbers_at, regenerated, settled_end, settled_interval, shown_from, shown_intervals, shown_record};
ghost use Rattle.ft_interval_store.specs.Standing.{ShowsAll};
ghost use Rattle.ft_interval_store.specs.State.{AreOwnEnds, IsAboveAll, IsAfter, IsAfterFirst, IsAsBefore, IsFirst, IsInOrder, IsLive, IsRefusedEdit, KeepsReferences, Pushes, first_operation, first_stage, is_add, is_at_stage, is_interval_operation, is_shown, operation_at, placed, placed_intervals, placed_operations, text_elements, with_effect, with_ends_at, with_first_acked};

use crate::all::{
    acked_records, add_named, first_places, is_at_rest, places_of_pending, shown_behind,
};
use crate::effects::take_effect;
use crate::ends::{add_ends, drop_ends, given_ends_fit};
use crate::faults::IntervalFault;
use crate::intervals::{EndPair, FoundInterval, Intervals};
use crate::named::{shown_around, shown_of};
use crate::numbers::{add_numbers, settled_numbers, with_numbers};
use crate::pending::{Operation, given_ends, has_stage, is_add, place_of_stage, push_copy};
use crate::shown::{is_acked, is_there, shown_ends};
use crate::standing::shown_numbers;
use ft_base::{Datum, OutOfMemory, Perspective, Text};
use ft_block::LenView;
use ft_op::{ChannelOp, Ends, TextOp};
use ft_refs::{Place, RefId};
use ft_sumdoc::IntervalRec;
use ft_tree::{TextContent, Tree};
use std::alloc::Global;
use std::collections::VecDeque;
use std::marker::Model;

/// Intervals by label and id, with what is pending on them.
///
/// Their ends are references of a tree: those of acknowledged intervals slide as their elements are removed, and those of
/// pending operations stay. Each call has the condition that the references which it keeps are live in that tree, and keeps
/// this. After a call with a tree returned `OutOfMemory`, tree and collections may be used no more.
///
/// An interval is found by a binary search; what is shown of one looks at no other. Whether the view has it, as each edit asks,
/// depends on names alone.
#[derive(Drop)]
pub struct Store {
    acked: Intervals<RefId>,
    pending: VecDeque<Operation>,
}

impl Model for Store {
    ghost use Rattle.ft_interval_store.specs.State.{CollectionsState, IsInOrder};

    ghost Value = { CollectionsState };

    ghost view = { λ a. record { acked = a.acked; pending = a.pending.items } };

    ghost invariant = { λ a. IsInOrder (record { acked = a.acked; pending = a.pending.items }) };
}

/// An operation that was acknowledged, with the ends of its interval.
#[derive(Drop)]
pub struct AckedOperation {
    pub op: TextOp,
    /// The ends that its interval has now, none where it isn't there.
    pub ends: EndPair<RefId>,
}

impl Store {
    /// No intervals, and nothing pending.
    pub fn new(alloc: Global) -> Store
        ensures { result ≡ record { acked = []; pending = [] } }
    {
        Store {
            acked: Intervals::new(alloc),
            pending: VecDeque::new(alloc),
        }
    }

    /// Adds, changes or deletes an interval as a pending operation of that stage; its ends, if it gives some, are on the elements
    /// that the client sees.
    ///
    /// Returns `IdInUse` exactly where a new interval's label has the id in the view, `NoSuchInterval` exactly where that of a
    /// changed or deleted one doesn't have it, else `OutOfRange` exactly where ends are given and neither below the length seen nor
    /// both detached, and then nothing changed; and `OutOfMemory` where there is no room, and then tree and collections may be used
    /// no more.
    pub fn edit_local(
        &mut self,
        tree: &mut Tree<TextContent>,
        op: &TextOp,
        stage: u64,
    ) -> Result<(), IntervalFault>
        requires usable { IsTrue tree.old.usable }
        requires live { IsLive tree.old.refs self.old }
        requires kind { is_interval_operation op.now ≡ true }
        requires some { 1 ≤ stage }
        requires above { IsAboveAll stage self.old }
        ensures taken { OnOk result (Pushes (seen_in (Stage stage)) (text_elements tree.old) stage op.now self.old self.new tree.old tree.new) }
        ensures name { OnOk result (is_shown (text_elements tree.old) (name_in op.now) (placed tree.old.refs self.old) ≡ not (is_add op.now)) }
        ensures refused { let shown = is_shown (text_elements tree.old) (name_in op.now) (placed tree.old.refs self.old) in
            let length = len (seen_in (Stage stage)) (text_elements tree.old) in
            IfErr result (IsRefusedEdit shown length op.now (IsAsBefore self.old self.new tree.old tree.new)) }
        ensures unusable { IfErr result (λ e. e ≡ fault.OutOfMemory → tree.new.usable ≡ false) }
        ensures acked { self.new.acked ≡ self.old.acked }
    {
        let adds = is_add(op);
        let shown = self.is_shown(op);
        if adds && shown {
            return Err(IntervalFault::IdInUse);
        }
        if !adds && !shown {
            return Err(IntervalFault::NoSuchInterval);
        }
        let view = LenView::Stage(stage);
        let given = given_ends(op);
        let length = tree.length(view);
        if !given_ends_fit(length, given) {
            return Err(IntervalFault::OutOfRange { length });
        }
        let ends = add_ends(tree, given, view)?;
        let Ok(()) = push_copy(&mut self.pending, stage, op, ends) else {
            tree.spoil();
            return Err(IntervalFault::OutOfMemory);
        };
        Ok(())
    }

    // Whether the view has the interval that the operation is on, which doesn't depend on the elements.
    fn is_shown(&self, op: &TextOp) -> bool
        requires { is_interval_operation op.now ≡ true }
        ensures { (tree : TreeState TextContent) → result ≡ is_shown (text_elements tree) (name_in op.now) (placed tree.refs self.now) }
    {
        match op {
            TextOp::IntervalAdd { label, id, .. } => self.has_shown(label, id),
            TextOp::IntervalChange { label, id, .. } => self.has_shown(label, id),
            TextOp::IntervalDelete { label, id } => self.has_shown(label, id),
            TextOp::One(_) | TextOp::Group(_) => unreachable!(),
        }
    }

    // Whether the label has the id in the view.
    fn has_shown(&self, label: &Text, id: &Text) -> bool
        ensures { (tree : TreeState TextContent) → result ≡ is_shown (text_elements tree) (label.now, id.now) (placed tree.refs self.now) }
    {
        // That names rise is read off its contract.
        let _all = self.acked.pages();
        let acked = is_acked(&self.acked, label, id);
        is_there(&self.pending, label, id, acked)
    }

    /// Where the acknowledged interval that an operation is on stands, and its ends.
    pub fn find(&self, op: &TextOp) -> FoundInterval<RefId>
        ensures place { result.place ≡ place_of_operation op.now self.now.acked }
        ensures ends { AreOwnEnds op.now self.now.acked result.ends }
    {
        self.acked.find(op)
    }

    /// Applies a sequenced operation of another client, with its ends on the elements that its sender sees. It returns None
    /// exactly where they are given and are neither below the length that the sender sees nor both detached, and then nothing
    /// changed, and else the ends of the operation's interval, none where it isn't there. An add does nothing where the label has
    /// the id, a change and a delete nothing where it doesn't.
    ///
    /// Returns `OutOfMemory` where there is no room, and then tree and collections may be used no more.
    pub fn apply(
        &mut self,
        tree: &mut Tree<TextContent>,
        op: &TextOp,
        at: Perspective,
        found: &FoundInterval<RefId>,
    ) -> Result<Option<EndPair<RefId>>, OutOfMemory>
        requires usable { IsTrue tree.old.usable }
        requires live { IsLive tree.old.refs self.old }
        requires kind { is_interval_operation op.now ≡ true }
        requires floor { tree.old.floor ≤ at.r }
        requires found { found.now.place ≡ place_of_operation op.now self.old.acked }
        ensures fits { IfOk result (λ now. is_some now ≡ given_ends_fit (len (seen_in (At at)) (text_elements tree.old)) (ends_of op.now)) }
        ensures effect { let xs = text_elements tree.old in
            let ends = map_ends (slid_end xs) (places_of_given (seen_in (At at)) xs (ends_of op.now)) in
            IfOk result (λ now. is_some now ≡ true → placed tree.new.refs self.new ≡ with_effect op.now ends (placed tree.old.refs self.old)) }
        ensures refs { IfOk result (λ now. is_some now ≡ true → KeepsReferences self.old self.new tree.old.refs tree.new.refs) }
        ensures after { IfOk result (λ now. is_some now ≡ true → IsAfter op.now self.old.acked self.new.acked) }
        ensures ends { IfOk result (λ now. IfSome now (AreOwnEnds op.now self.new.acked)) }
        ensures rest { OnOk result (tree.new ≡ record tree.old { refs = tree.new.refs }) }
        ensures misfit { IfOk result (λ now. is_some now ≡ false → (self.new ≡ self.old) × (tree.new ≡ tree.old)) }
        ensures err { OnErr result (tree.new.usable ≡ false) }
    {
        let view = LenView::At(at);
        let given = given_ends(op);
        if !given_ends_fit(tree.length(view), given) {
            return Ok(None);
        }
        let ends = add_ends(tree, given, view)?;
        Ok(Some(take_effect(&mut self.acked, tree, found.place, op, &ends)?))
    }

    /// Acknowledges the pending operation of that stage, which is the first: it takes effect on the acknowledged intervals, and
    /// its ends slide. It returns the operation, with the ends of its interval.
    ///
    /// Returns `OutOfMemory` where there is no room, and then tree and collections may be used no more.
    pub fn ack(
        &mut self,
        tree: &mut Tree<TextContent>,
        stage: u64,
        found: &FoundInterval<RefId>,
    ) -> Result<AckedOperation, OutOfMemory>
        requires usable { IsTrue tree.old.usable }
        requires live { IsLive tree.old.refs self.old }
        requires first { IsFirst stage self.old }
        requires found { (op : TextOp) → first_operation self.old.pending ≡ Some op → found.now.place ≡ place_of_operation op self.old.acked }
        ensures effect { let xs = text_elements tree.old in
            OnOk result (placed tree.new.refs self.new ≡ with_first_acked (map_ends (slid_end xs)) (placed tree.old.refs self.old)) }
        ensures refs { OnOk result (KeepsReferences self.old self.new tree.old.refs tree.new.refs) }
        ensures after { OnOk result (IsAfterFirst self.old.pending self.old.acked self.new.acked) }
        ensures op { IfOk result (λ acked. first_operation self.old.pending ≡ Some acked.op) }
        ensures ends { IfOk result (λ acked. AreOwnEnds acked.op self.new.acked acked.ends) }
        ensures rest { OnOk result (tree.new ≡ record tree.old { refs = tree.new.refs }) }
        ensures err { OnErr result (tree.new.usable ≡ false) }
    {
        let first = &self.pending[0];
        let ends = take_effect(&mut self.acked, tree, found.place, &first.op, &first.ends)?;
        let Some(Operation { op, .. }) = self.pending.remove(0) else {
            unreachable!();
        };
        Ok(AckedOperation { op, ends })
    }

    /// The stage of the first pending operation: None exactly where nothing is pending.
    pub fn first_stage(&self) -> Option<u64>
        ensures value { result ≡ first_stage self.now.pending }

        // What holds of the collections at any time.
        ensures order { IsInOrder self.now }
        ensures names { NamesRise self.now.acked }
    {
        // That names rise is read off its contract.
        let _all = self.acked.pages();
        match self.pending.front() {
            Some(t) => Some(t.stage),
            None => None,
        }
    }

    /// The operation of the first stage: None exactly where nothing is pending.
    pub fn first_operation(&self) -> Option<&TextOp>
        ensures { option_copied result ≡ first_operation self.now.pending }
    {
        match self.pending.front() {
            Some(t) => Some(&t.op),
            None => None,
        }
    }

    /// Whether the operation of that stage is pending.
    pub fn is_pending(&self, stage: u64) -> bool
        ensures { result ≡ list_any (is_at_stage stage) self.now.pending }
    {
        has_stage(&self.pending, stage)
    }

    /// The ends that are shown of the interval of that label and id, as numbers among the elements that the client sees, -1 where
    /// they are detached: None exactly where the view has no such interval.
    pub fn shown(&self, tree: &Tree<TextContent>, label: &Text, id: &Text) -> Option<Ends>
        requires usable { IsTrue tree.now.usable }
        requires live { IsLive tree.now.refs self.now }
        ensures { let xs = text_elements tree.now in
            let c = placed tree.now.refs self.now in
            result ≡ option_map (λ i. numbers_at xs last i.ends) (interval_of (label.now, id.now) (shown_intervals xs c.acked c.pending)) }
    {
        let ends = shown_ends(tree, &self.acked, &self.pending, label, id)?;
        Some(shown_numbers(tree, ends))
    }

    /// All intervals as they are shown, by rising label and id.
    pub fn all(&self, tree: &Tree<TextContent>) -> Result<Vec<IntervalRec>, OutOfMemory>
        requires usable { IsTrue tree.now.usable }
        requires live { IsLive tree.now.refs self.now }
        ensures { let xs = text_elements tree.now in
            let c = placed tree.now.refs self.now in
            IfOk result (λ all. all.items ≡ map (shown_record xs) (shown_intervals xs c.acked c.pending)) }
    {
        if is_at_rest(tree, &self.pending) {
            return acked_records(tree, &self.acked);
        }
        shown_behind(tree, first_places(tree, &self.acked)?, &self.pending)
    }

    /// The interval that the operation adds, changes or deletes as it is shown, if it is there. It goes over the pending operations
    /// once.
    pub fn shown_of(
        &self,
        tree: &Tree<TextContent>,
        op: &ChannelOp,
    ) -> Result<Vec<IntervalRec>, OutOfMemory>
        requires usable { IsTrue tree.now.usable }
        requires live { IsLive tree.now.refs self.now }
        ensures { let xs = text_elements tree.now in
            let c = placed tree.now.refs self.now in
            IfOk result (λ some. some.items ≡ filter (λ i. is_operation_on (name_of_record i) op.now) (map (shown_record xs) (shown_intervals xs c.acked c.pending))) }
    {
        shown_of(tree, &self.acked, &self.pending, op)
    }

    /// The intervals that the operation or a pending one adds, changes or deletes as they are shown, by rising label and id. It
    /// goes over them once for each run of pending operations between which stages remove elements.
    pub fn shown_around(
        &self,
        tree: &Tree<TextContent>,
        op: &ChannelOp,
    ) -> Result<Vec<IntervalRec>, OutOfMemory>
        requires usable { IsTrue tree.now.usable }
        requires live { IsLive tree.now.refs self.now }
        ensures { let xs = text_elements tree.now in
            let c = placed tree.now.refs self.now in
            IfOk result (λ some. some.items ≡ filter (λ i. is_on_any (name_of_record i) self.now.pending || is_operation_on (name_of_record i) op.now) (map (shown_record xs) (shown_intervals xs c.acked c.pending))) }
    {
        shown_around(tree, &self.acked, &self.pending, op)
    }

    /// The acknowledged intervals that pending operations are on, at stage 0.
    pub fn places_of_pending(
        &self,
        tree: &Tree<TextContent>,
    ) -> Result<Intervals<Place>, OutOfMemory>
        requires usable { IsTrue tree.now.usable }
        requires live { IsLive tree.now.refs self.now }
        ensures part { let from = map (settled_interval (text_elements tree.now) 0) (placed_intervals tree.now.refs self.now.acked) in
            IfOk result (λ all. (is : List (Interval ℕ)) × ShowsAll tree.now 0 is all × IsPartOf from is (λ n. is_on_any n self.now.pending)) }
        ensures fits { OnOk result (All (λ t. t.stage ≤ last) self.now.pending) }
    {
        places_of_pending(tree, &self.acked, &self.pending)
    }

    /// Adds the acknowledged interval of that label and id, at stage 0, if it is there.
    pub fn add_named(
        &self,
        tree: &Tree<TextContent>,
        label: &Text,
        id: &Text,
        all: &mut Intervals<Place>,
    ) -> Result<(), OutOfMemory>
        requires usable { IsTrue tree.now.usable }
        requires live { IsLive tree.now.refs self.now }
        ensures { let from = map (settled_interval (text_elements tree.now) 0) (placed_intervals tree.now.refs self.now.acked) in
            OnOk result (Gathers tree.now from (λ n. is_eq (name_cmp n (label.now, id.now))) all.old all.new) }
    {
        add_named(tree, &self.acked, label, id, all)
    }

    /// These intervals at stage 0 as they are shown behind all pending operations.
    pub fn shown_behind(
        &self,
        tree: &Tree<TextContent>,
        first: Intervals<Place>,
    ) -> Result<Vec<IntervalRec>, OutOfMemory>
        requires usable { IsTrue tree.now.usable }
        requires live { IsLive tree.now.refs self.now }
        requires shown { (is : List (Interval ℕ)) × ShowsAll tree.now 0 is first }
        ensures { let xs = text_elements tree.now in
            (is : List (Interval ℕ)) → ShowsAll tree.now 0 is first
            → IfOk result (λ all. all.items ≡ map (shown_record xs) (shown_from xs 0 (placed_operations tree.now.refs self.now.pending) is)) }
    {
        shown_behind(tree, first, &self.pending)
    }

    /// The operation of that pending stage as it is sent again after a reconnection: its ends, if it gives some, are settled at
    /// the stage, as numbers among the elements which that sees, -1 where there is none. The ends stay settled.
    ///
    /// Returns `OutOfMemory` where there is no room, and then tree and collections may be used no more.
    pub fn settle_op(
        &mut self,
        tree: &mut Tree<TextContent>,
        stage: u64,
    ) -> Result<TextOp, OutOfMemory>
        requires usable { IsTrue tree.old.usable }
        requires live { IsLive tree.old.refs self.old }
        requires pending { IsSome (operation_at stage self.old.pending) }
        ensures op { let xs = text_elements tree.old in
            let c = placed tree.old.refs self.old in
            IfOk result (λ op. Some op ≡ option_map (λ t. regenerated xs stage (map_ends (settled_end xs stage) t.ends) t.op) (operation_at stage c.pending)) }
        ensures settled { let xs = text_elements tree.old in
            OnOk result (placed tree.new.refs self.new ≡ with_ends_at stage (map_ends (settled_end xs stage)) (placed tree.old.refs self.old)) }
        ensures refs { OnOk result (KeepsReferences self.old self.new tree.old.refs tree.new.refs) }
        ensures rest { OnOk result (tree.new ≡ record tree.old { refs = tree.new.refs }) }
        ensures acked { self.new.acked ≡ self.old.acked }
        ensures err { OnErr result (tree.new.usable ≡ false) }
    {
        let Some(i) = place_of_stage(&self.pending, stage) else {
            unreachable!();
        };
        let numbers = settled_numbers(tree, self.pending[i].ends, stage);
        let again = add_numbers(tree, &numbers, stage)?;
        drop_ends(tree, self.pending[i].ends);
        self.pending[i].ends = again;
        let Ok(op) = with_numbers(&self.pending[i].op, numbers) else {
            tree.spoil();
            return Err(OutOfMemory);
        };
        Ok(op)
    }
}
