//! Collections of intervals.

ghost use Rattle.std.specs.Prelude.{◌≡◌, ◌≤◌, ◌+◌, ◌*◌, ◌^◌, ◌||◌, [], Some, IsSome, not, IsTrue, IfOk, IfErr, OnErr, OnOk, true, false, filter, length, map, option_map};
ghost use Rattle.std.specs.List.{list_any};
ghost use Rattle.ft_base.specs.Scan.{len};
ghost use Rattle.ft_block.specs.declared.leaves.LenView.TheVariants.{At, Stage};
ghost use Rattle.ft_tree_leaves.specs.declared.text.TextContent.{TextContent};
ghost use Rattle.ft_tree_leaves.specs.Elements.{seen_in};
ghost use Rattle.ft_tree.specs.State.{TreeState};
ghost use Rattle.ft_op.specs.Document.{ends_of, given_ends_fit};
ghost use Rattle.ft_sumdoc.specs.Meeting.{meets};
ghost use Rattle.ft_interval_store.specs.declared.faults.IntervalFault.TheVariants as fault;
ghost use Rattle.ft_interval_store.specs.Ends.{map_ends, places_of_given, slid_end};
ghost use Rattle.ft_interval_index.specs.Indexes.{index_of, list_in};
ghost use Rattle.ft_interval.specs.State.{StandsOn};
ghost use Rattle.ft_interval_store.specs.Intervals.{NamesRise, has_label, interval_of, name_in};
ghost use Rattle.ft_interval_store.specs.Gathered.{is_on_any};
ghost use Rattle.ft_interval_store.specs.Named.{is_operation_on, name_of_record};
ghost use Rattle.ft_interval_store.specs.Shown.{last, numbers_at, regenerated, settled_end, shown_intervals, shown_record};
ghost use Rattle.ft_interval_store.specs.State.{IsAboveAll, IsFirst, IsInOrder, IsAsBefore, IsRefusedEdit, KeepsReferences, Pushes, first_stage, is_add, is_at_stage, is_change, is_delete, is_interval_operation, is_shown, operation_at, placed, text_elements, with_effect, with_ends_at, with_first_acked};

use ft_base::{OutOfMemory, Perspective, Steps, Text};
use ft_interval_index::gathering::overlapping;
use ft_interval_index::indexes::Indexes;
use ft_interval_index::listing::{enlist_changed, unlist_changed};
use ft_interval_store::{IntervalFault, Store};
use ft_op::{ChannelOp, Ends, TextOp};
use ft_sumdoc::IntervalRec;
use ft_tree::{TextContent, Tree};
use std::alloc::Global;
use std::marker::Model;
use std::sync::ledger::Ledger;

/// Intervals by label and id, with what is pending on them.
///
/// Their ends are references of a tree: those of acknowledged intervals slide as their elements are removed, and those of
/// pending operations stay. Each call has the condition that the references which it keeps are live in that tree and that its
/// indexes are in order there, and keeps this. After a call with a tree returned `OutOfMemory`, tree and collections may be used
/// no more.
///
/// An interval is found by a binary search; what is shown of one looks at no other. The acknowledged intervals of each label have
/// an index, so that those which meet a range are found by reading a few nodes for each of them.
#[derive(Drop)]
pub struct Collections {
    store: Store,
    indexes: Indexes,
}

impl Model for Collections {
    ghost use Rattle.ft_interval.specs.State.{IndexedState};

    ghost Value = { IndexedState };

    ghost view = { λ a. record { state = a.store; indexes = a.indexes } };
}

impl Collections {
    /// No intervals, and nothing pending.
    pub fn new(alloc: Global) -> Collections
        ensures value { result ≡ record { state = record { acked = []; pending = [] }; indexes = [] } }
        ensures stands { (tree : TreeState TextContent) → StandsOn tree result }
    {
        Collections {
            store: Store::new(alloc),
            indexes: Indexes::new(alloc),
        }
    }

    /// Adds an interval as a pending operation of that stage, with its ends on the elements that the client sees.
    ///
    /// Returns `IdInUse` exactly where the label has the id in the view, else `OutOfRange` exactly where the ends are neither
    /// below the length seen nor both detached, and then nothing changed; and `OutOfMemory` where there is no room, and then
    /// tree and collections may be used no more.
    pub fn add_local(
        &mut self,
        tree: &mut Tree<TextContent>,
        op: &TextOp,
        stage: u64,
    ) -> Result<(), IntervalFault>
        requires usable { IsTrue tree.old.usable }
        requires stands { StandsOn tree.old self.old }
        requires kind { is_add op.now ≡ true }
        requires some { 1 ≤ stage }
        requires above { IsAboveAll stage self.old.state }
        ensures taken { OnOk result (Pushes (seen_in (Stage stage)) (text_elements tree.old) stage op.now self.old.state self.new.state tree.old tree.new) }
        ensures name { OnOk result (is_shown (text_elements tree.old) (name_in op.now) (placed tree.old.refs self.old.state) ≡ not (is_add op.now)) }
        ensures refused { let shown = is_shown (text_elements tree.old) (name_in op.now) (placed tree.old.refs self.old.state) in
            let length = len (seen_in (Stage stage)) (text_elements tree.old) in
            IfErr result (IsRefusedEdit shown length op.now (IsAsBefore self.old.state self.new.state tree.old tree.new)) }
        ensures unusable { IfErr result (λ e. e ≡ fault.OutOfMemory → tree.new.usable ≡ false) }
        ensures indexes { self.new.indexes ≡ self.old.indexes }
        ensures stands { OnOk result (StandsOn tree.new self.new) }
    {
        self.store.edit_local(tree, op, stage)
    }

    /// Changes an interval as a pending operation of that stage; its new ends, if it gets some, are on the elements that the
    /// client sees.
    ///
    /// Returns `NoSuchInterval` exactly where the label doesn't have the id in the view, else `OutOfRange` exactly where the
    /// ends are given and neither below the length seen nor both detached, and then nothing changed; and `OutOfMemory` where
    /// there is no room, and then tree and collections may be used no more.
    pub fn change_local(
        &mut self,
        tree: &mut Tree<TextContent>,
        op: &TextOp,
        stage: u64,
    ) -> Result<(), IntervalFault>
        requires usable { IsTrue tree.old.usable }
        requires stands { StandsOn tree.old self.old }
        requires kind { is_change op.now ≡ true }
        requires some { 1 ≤ stage }
        requires above { IsAboveAll stage self.old.state }
        ensures taken { OnOk result (Pushes (seen_in (Stage stage)) (text_elements tree.old) stage op.now self.old.state self.new.state tree.old tree.new) }
        ensures name { OnOk result (is_shown (text_elements tree.old) (name_in op.now) (placed tree.old.refs self.old.state) ≡ not (is_add op.now)) }
        ensures refused { let shown = is_shown (text_elements tree.old) (name_in op.now) (placed tree.old.refs self.old.state) in
            let length = len (seen_in (Stage stage)) (text_elements tree.old) in
            IfErr result (IsRefusedEdit shown length op.now (IsAsBefore self.old.state self.new.state tree.old tree.new)) }
        ensures unusable { IfErr result (λ e. e ≡ fault.OutOfMemory → tree.new.usable ≡ false) }
        ensures indexes { self.new.indexes ≡ self.old.indexes }
        ensures stands { OnOk result (StandsOn tree.new self.new) }
    {
        self.store.edit_local(tree, op, stage)
    }

    /// Takes an interval away as a pending operation of that stage.
    ///
    /// Returns `NoSuchInterval` exactly where the label doesn't have the id in the view, and then nothing changed; and
    /// `OutOfMemory` where there is no room, and then tree and collections may be used no more.
    pub fn delete_local(
        &mut self,
        tree: &mut Tree<TextContent>,
        op: &TextOp,
        stage: u64,
    ) -> Result<(), IntervalFault>
        requires usable { IsTrue tree.old.usable }
        requires stands { StandsOn tree.old self.old }
        requires kind { is_delete op.now ≡ true }
        requires some { 1 ≤ stage }
        requires above { IsAboveAll stage self.old.state }
        ensures taken { OnOk result (Pushes (seen_in (Stage stage)) (text_elements tree.old) stage op.now self.old.state self.new.state tree.old tree.new) }
        ensures name { OnOk result (is_shown (text_elements tree.old) (name_in op.now) (placed tree.old.refs self.old.state) ≡ not (is_add op.now)) }
        ensures refused { let shown = is_shown (text_elements tree.old) (name_in op.now) (placed tree.old.refs self.old.state) in
            let length = len (seen_in (Stage stage)) (text_elements tree.old) in
            IfErr result (IsRefusedEdit shown length op.now (IsAsBefore self.old.state self.new.state tree.old tree.new)) }
        ensures unusable { IfErr result (λ e. e ≡ fault.OutOfMemory → tree.new.usable ≡ false) }
        ensures indexes { self.new.indexes ≡ self.old.indexes }
        ensures stands { OnOk result (StandsOn tree.new self.new) }
    {
        self.store.edit_local(tree, op, stage)
    }

    /// Applies a sequenced operation of another client, with its ends on the elements that its sender sees. It returns false
    /// exactly where they are given and are neither below the length that the sender sees nor both detached, and then nothing
    /// is shown otherwise. An add does nothing where the label has the id, a change and a delete nothing where it doesn't.
    ///
    /// Returns `OutOfMemory` where there is no room, and then tree and collections may be used no more.
    pub fn apply(
        &mut self,
        tree: &mut Tree<TextContent>,
        op: &TextOp,
        at: Perspective,
    ) -> Result<bool, OutOfMemory>
        requires usable { IsTrue tree.old.usable }
        requires stands { StandsOn tree.old self.old }
        requires kind { is_interval_operation op.now ≡ true }
        requires floor { tree.old.floor ≤ at.r }
        ensures fits { IfOk result (λ fits. fits ≡ given_ends_fit (len (seen_in (At at)) (text_elements tree.old)) (ends_of op.now)) }
        ensures effect { let xs = text_elements tree.old in
            let ends = map_ends (slid_end xs) (places_of_given (seen_in (At at)) xs (ends_of op.now)) in
            IfOk result (λ fits. fits ≡ true → placed tree.new.refs self.new.state ≡ with_effect op.now ends (placed tree.old.refs self.old.state)) }
        ensures refs { IfOk result (λ fits. fits ≡ true → KeepsReferences self.old.state self.new.state tree.old.refs tree.new.refs) }
        ensures rest { OnOk result (tree.new ≡ record tree.old { refs = tree.new.refs }) }
        ensures misfit { IfOk result (λ fits. fits ≡ false → (self.new.state ≡ self.old.state) × (tree.new ≡ tree.old)) }
        ensures stands { OnOk result (StandsOn tree.new self.new) }
        ensures err { OnErr result (tree.new.usable ≡ false) }
    {
        // That names rise is read off its contract.
        let _first = self.store.first_stage();
        let found = self.store.find(op);
        unlist_changed(&mut self.indexes, &self.store, tree, op, found.ends);
        let now = self.store.apply(tree, op, at, &found)?;
        let fits = now.is_some();
        let ends = now.unwrap_or(found.ends);
        let Ok(()) = enlist_changed(&mut self.indexes, &self.store, tree, op, ends) else {
            tree.spoil();
            return Err(OutOfMemory);
        };
        Ok(fits)
    }

    /// Acknowledges the pending operation of that stage, which is the first: it takes effect on the acknowledged intervals, and
    /// its ends slide.
    ///
    /// Returns `OutOfMemory` where there is no room, and then tree and collections may be used no more.
    pub fn ack(&mut self, tree: &mut Tree<TextContent>, stage: u64) -> Result<(), OutOfMemory>
        requires usable { IsTrue tree.old.usable }
        requires stands { StandsOn tree.old self.old }
        requires first { IsFirst stage self.old.state }
        ensures effect { let xs = text_elements tree.old in
            OnOk result (placed tree.new.refs self.new.state ≡ with_first_acked (map_ends (slid_end xs)) (placed tree.old.refs self.old.state)) }
        ensures refs { OnOk result (KeepsReferences self.old.state self.new.state tree.old.refs tree.new.refs) }
        ensures rest { OnOk result (tree.new ≡ record tree.old { refs = tree.new.refs }) }
        ensures stands { OnOk result (StandsOn tree.new self.new) }
        ensures err { OnErr result (tree.new.usable ≡ false) }
    {
        // That names rise is read off its contract.
        let _first = self.store.first_stage();
        let Some(op) = self.store.first_operation() else {
            unreachable!();
        };
        let found = self.store.find(op);
        unlist_changed(&mut self.indexes, &self.store, tree, op, found.ends);
        let acked = self.store.ack(tree, stage, &found)?;
        let Ok(()) = enlist_changed(&mut self.indexes, &self.store, tree, &acked.op, acked.ends)
        else {
            tree.spoil();
            return Err(OutOfMemory);
        };
        Ok(())
    }

    /// The stage of the first pending operation: None exactly where nothing is pending.
    pub fn first_stage(&self) -> Option<u64>
        ensures value { result ≡ first_stage self.now.state.pending }

        // What holds of the collections at any time.
        ensures order { IsInOrder self.now.state }
        ensures names { NamesRise self.now.state.acked }
    {
        self.store.first_stage()
    }

    /// Whether the operation of that stage is pending.
    pub fn is_pending(&self, stage: u64) -> bool
        ensures { result ≡ list_any (is_at_stage stage) self.now.state.pending }
    {
        self.store.is_pending(stage)
    }

    /// The ends that are shown of the interval of that label and id, as numbers among the elements that the client sees, -1 where
    /// they are detached: None exactly where the view has no such interval.
    pub fn shown(&self, tree: &Tree<TextContent>, label: &Text, id: &Text) -> Option<Ends>
        requires usable { IsTrue tree.now.usable }
        requires stands { StandsOn tree.now self.now }
        ensures { let xs = text_elements tree.now in
            let c = placed tree.now.refs self.now.state in
            result ≡ option_map (λ i. numbers_at xs last i.ends) (interval_of (label.now, id.now) (shown_intervals xs c.acked c.pending)) }
    {
        self.store.shown(tree, label, id)
    }

    /// All intervals as they are shown, by rising label and id.
    pub fn all(&self, tree: &Tree<TextContent>) -> Result<Vec<IntervalRec>, OutOfMemory>
        requires usable { IsTrue tree.now.usable }
        requires stands { StandsOn tree.now self.now }
        ensures { let xs = text_elements tree.now in
            let c = placed tree.now.refs self.now.state in
            IfOk result (λ all. all.items ≡ map (shown_record xs) (shown_intervals xs c.acked c.pending)) }
    {
        self.store.all(tree)
    }

    /// The interval that the operation adds, changes or deletes as it is shown, if it is there. It goes over the pending operations
    /// once.
    pub fn shown_of(
        &self,
        tree: &Tree<TextContent>,
        op: &ChannelOp,
    ) -> Result<Vec<IntervalRec>, OutOfMemory>
        requires usable { IsTrue tree.now.usable }
        requires stands { StandsOn tree.now self.now }
        ensures { let xs = text_elements tree.now in
            let c = placed tree.now.refs self.now.state in
            IfOk result (λ some. some.items ≡ filter (λ i. is_operation_on (name_of_record i) op.now) (map (shown_record xs) (shown_intervals xs c.acked c.pending))) }
    {
        self.store.shown_of(tree, op)
    }

    /// The intervals that the operation or a pending one adds, changes or deletes as they are shown, by rising label and id. It
    /// goes over them once for each run of pending operations between which stages remove elements.
    pub fn shown_around(
        &self,
        tree: &Tree<TextContent>,
        op: &ChannelOp,
    ) -> Result<Vec<IntervalRec>, OutOfMemory>
        requires usable { IsTrue tree.now.usable }
        requires stands { StandsOn tree.now self.now }
        ensures { let xs = text_elements tree.now in
            let c = placed tree.now.refs self.now.state in
            IfOk result (λ some. some.items ≡ filter (λ i. is_on_any (name_of_record i) self.now.state.pending || is_operation_on (name_of_record i) op.now) (map (shown_record xs) (shown_intervals xs c.acked c.pending))) }
    {
        self.store.shown_around(tree, op)
    }

    /// The intervals of the label as they are shown that meet the places from `a` to `b`, by rising id: those that aren't
    /// detached, start at or before `b` and end at or after `a`. A read of a node of an index is one step.
    pub fn overlapping<G: Ledger>(
        &self,
        tree: &Tree<TextContent>,
        label: &Text,
        a: u64,
        b: u64,
        steps: &mut Steps<G>,
    ) -> Result<Vec<IntervalRec>, OutOfMemory>
        requires usable { IsTrue tree.now.usable }
        requires stands { StandsOn tree.now self.now }
        requires order { a ≤ b }
        ensures found { let xs = text_elements tree.now in
            let c = placed tree.now.refs self.now.state in
            IfOk result (λ found. found.items ≡ filter (meets label.now a b) (map (shown_record xs) (shown_intervals xs c.acked c.pending))) }

        // For each interval that is found or pending, and once more, it reads a few nodes on each level of the label's index.
        ensures cost { let xs = text_elements tree.now in
            let c = placed tree.now.refs self.now.state in
            let k = length (filter (meets label.now a b) (map (shown_record xs) (shown_intervals xs c.acked c.pending))) in
            let depth = (list_in (index_of label.now self.now.indexes)).depth in
            steps.new ≤ steps.old + 9 * (depth + 1) * (k + length self.now.state.pending + 1) }
        ensures depth { let list = list_in (index_of label.now self.now.indexes) in 4 ^ list.depth ≤ length list.items + 1 }
        ensures few { length (list_in (index_of label.now self.now.indexes)).items ≤ length self.now.state.acked }
        ensures labelled { length (list_in (index_of label.now self.now.indexes)).items ≤ length (filter (has_label label.now) self.now.state.acked) }
    {
        overlapping(&self.store, &self.indexes, tree, label, a, b, steps)
    }

    /// The operation of that pending stage as it is sent again after a reconnection: its ends, if it gives some, are settled at
    /// the stage, as numbers among the elements which that sees, -1 where there is none. The ends stay settled.
    ///
    /// Returns `OutOfMemory` where there is no room, and then tree and collections may be used no more.
    pub fn settle_op(
        &mut self,
        tree: &mut Tree<TextContent>,
        stage: u64,
    ) -> Result<TextOp, OutOfMemory>
        requires usable { IsTrue tree.old.usable }
        requires stands { StandsOn tree.old self.old }
        requires pending { IsSome (operation_at stage self.old.state.pending) }
        ensures op { let xs = text_elements tree.old in
            let c = placed tree.old.refs self.old.state in
            IfOk result (λ op. Some op ≡ option_map (λ t. regenerated xs stage (map_ends (settled_end xs stage) t.ends) t.op) (operation_at stage c.pending)) }
        ensures settled { let xs = text_elements tree.old in
            OnOk result (placed tree.new.refs self.new.state ≡ with_ends_at stage (map_ends (settled_end xs stage)) (placed tree.old.refs self.old.state)) }
        ensures refs { OnOk result (KeepsReferences self.old.state self.new.state tree.old.refs tree.new.refs) }
        ensures rest { OnOk result (tree.new ≡ record tree.old { refs = tree.new.refs }) }
        ensures stands { OnOk result (StandsOn tree.new self.new) }
        ensures err { OnErr result (tree.new.usable ≡ false) }
    {
        self.store.settle_op(tree, stage)
    }
}
