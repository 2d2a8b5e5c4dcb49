//! Intervals that operations are on as they are shown, found by their names.

ghost use Rattle.std.specs.Prelude.{◌≡◌, ◌≤◌, ◌||◌, ℕ, List, All, IfOk, IsTrue, OnOk, cond, filter, map};
ghost use Rattle.std.specs.Ordering.{is_eq};
ghost use Rattle.ft_interval_store.specs.declared.intervals.Interval.{Interval};
ghost use Rattle.ft_interval_store.specs.Ends.{AreLiveEnds, map_ends, places_of_ends};
ghost use Rattle.ft_interval_store.specs.Gathered.{Gathers, is_on_any};
ghost use Rattle.ft_interval_store.specs.Intervals.{after_operation, is_on, name_cmp};
ghost use Rattle.ft_interval_store.specs.Named.{AddsNoOther, is_operation_on, name_of_record};
ghost use Rattle.ft_interval_store.specs.Shown.{carried, last, settled_end, settled_interval, shown_intervals, shown_record};
ghost use Rattle.ft_interval_store.specs.Standing.{HasPlaces, ShowsAll};
ghost use Rattle.ft_interval_store.specs.State.{AreLiveIntervals, AreLiveOperations, StagesRise, placed_intervals, placed_operations, text_elements};

use crate::all::{
    add_changed, add_named, carry_all, places_of_pending, records, shown_behind, take_next,
};
use crate::intervals::Intervals;
use crate::pending::{Operation, is_on};
use ft_base::{OutOfMemory, Text};
use ft_op::{ChannelOp, TextOp};
use ft_refs::{Place, RefId};
use ft_sumdoc::IntervalRec;
use ft_tree::{TextContent, Tree};
use std::collections::VecDeque;

/// The interval that the operation is on as it is shown, if it is there. It goes over the pending operations once.
pub fn shown_of(
    tree: &Tree<TextContent>,
    acked: &Intervals<RefId>,
    pending: &VecDeque<Operation>,
    op: &ChannelOp,
) -> Result<Vec<IntervalRec>, OutOfMemory>
    requires usable { IsTrue tree.now.usable }
    requires acked { AreLiveIntervals tree.now.refs acked.now }
    requires pending { AreLiveOperations tree.now.refs pending.now.items }
    requires rising { StagesRise 0 pending.now.items }
    ensures { let xs = text_elements tree.now in
        let all = map (shown_record xs) (shown_intervals xs (placed_intervals tree.now.refs acked.now) (placed_operations tree.now.refs pending.now.items)) in
        IfOk result (λ some. some.items ≡ filter (λ i. is_operation_on (name_of_record i) op.now) all) }
{
    match op {
        ChannelOp::Text(op) => shown_of_text(tree, acked, pending, op),
        ChannelOp::Grid(_) => Ok(Vec::new(acked.allocator())),
    }
}

// The same of an operation of the text.
fn shown_of_text(
    tree: &Tree<TextContent>,
    acked: &Intervals<RefId>,
    pending: &VecDeque<Operation>,
    op: &TextOp,
) -> Result<Vec<IntervalRec>, OutOfMemory>
    requires usable { IsTrue tree.now.usable }
    requires acked { AreLiveIntervals tree.now.refs acked.now }
    requires pending { AreLiveOperations tree.now.refs pending.now.items }
    requires rising { StagesRise 0 pending.now.items }
    ensures { let xs = text_elements tree.now in
        let all = map (shown_record xs) (shown_intervals xs (placed_intervals tree.now.refs acked.now) (placed_operations tree.now.refs pending.now.items)) in
        IfOk result (λ some. some.items ≡ filter (λ i. is_on (name_of_record i) op.now) all) }
{
    match op {
        TextOp::IntervalAdd { label, id, .. } => shown_named(tree, acked, pending, label, id),
        TextOp::IntervalChange { label, id, .. } => shown_named(tree, acked, pending, label, id),
        TextOp::IntervalDelete { label, id } => shown_named(tree, acked, pending, label, id),
        TextOp::One(_) | TextOp::Group(_) => Ok(Vec::new(acked.allocator())),
    }
}

// The interval of that label and id as it is shown, if it is there.
fn shown_named(
    tree: &Tree<TextContent>,
    acked: &Intervals<RefId>,
    pending: &VecDeque<Operation>,
    label: &Text,
    id: &Text,
) -> Result<Vec<IntervalRec>, OutOfMemory>
    requires usable { IsTrue tree.now.usable }
    requires acked { AreLiveIntervals tree.now.refs acked.now }
    requires pending { AreLiveOperations tree.now.refs pending.now.items }
    requires rising { StagesRise 0 pending.now.items }
    ensures { let xs = text_elements tree.now in
        let all = map (shown_record xs) (shown_intervals xs (placed_intervals tree.now.refs acked.now) (placed_operations tree.now.refs pending.now.items)) in
        IfOk result (λ some. some.items ≡ filter (λ i. is_eq (name_cmp (name_of_record i) (label.now, id.now))) all) }
{
    // That names rise is read off its contract.
    let _all = acked.pages();
    let mut all = Intervals::new(acked.allocator());
    add_named(tree, acked, label, id, &mut all)?;
    let mut stage = 0;
    let mut i = 0;
    'next: while i < pending.len() {
        let t = &pending[i];
        take_next_if(tree, &mut all, t, stage, is_on(label, id, &t.op))?;
        stage = t.stage;
        i += 1;
    }
    carry_all(tree, &mut all, stage, u64::MAX);
    records(tree, all)
}

// Takes all intervals from stage `from` to the stage of the operation, and applies that if it is asked for.
fn take_next_if(
    tree: &Tree<TextContent>,
    all: &mut Intervals<Place>,
    t: &Operation,
    from: u64,
    asked: bool,
) -> Result<(), OutOfMemory>
    requires usable { IsTrue tree.now.usable }
    requires live { AreLiveEnds tree.now.refs t.now.ends }
    requires on_leaf { All (HasPlaces tree.now) all.old }
    requires rises { from ≤ t.now.stage }
    ensures fits { t.now.stage ≤ last }
    ensures shown { let xs = text_elements tree.now in
        let ends = map_ends (settled_end xs t.now.stage) (places_of_ends tree.now.refs t.now.ends) in
        (is : List (Interval ℕ)) → ShowsAll tree.now from is all.old
        → let there = carried xs from t.now.stage is in
        OnOk result (ShowsAll tree.now t.now.stage (cond asked (after_operation t.now.op ends there) there) all.new) }
{
    if asked {
        return take_next(tree, all, t, from);
    }
    carry_all(tree, all, from, t.stage);
    Ok(())
}

/// The intervals that the operation or a pending one is on as they are shown, by rising label and id. It goes over them once for
/// each run of pending operations between which stages remove elements.
pub fn shown_around(
    tree: &Tree<TextContent>,
    acked: &Intervals<RefId>,
    pending: &VecDeque<Operation>,
    op: &ChannelOp,
) -> Result<Vec<IntervalRec>, OutOfMemory>
    requires usable { IsTrue tree.now.usable }
    requires acked { AreLiveIntervals tree.now.refs acked.now }
    requires pending { AreLiveOperations tree.now.refs pending.now.items }
    requires rising { StagesRise 0 pending.now.items }
    ensures { let xs = text_elements tree.now in
        let all = map (shown_record xs) (shown_intervals xs (placed_intervals tree.now.refs acked.now) (placed_operations tree.now.refs pending.now.items)) in
        IfOk result (λ some. some.items ≡ filter (λ i. is_on_any (name_of_record i) pending.now.items || is_operation_on (name_of_record i) op.now) all) }
{
    // That names rise is read off its contract.
    let _all = acked.pages();
    let mut all = places_of_pending(tree, acked, pending)?;
    add_operation(tree, acked, op, &mut all)?;
    shown_behind(tree, all, pending)
}

// Adds the acknowledged interval that the operation is on, at stage 0, if it is there.
fn add_operation(
    tree: &Tree<TextContent>,
    acked: &Intervals<RefId>,
    op: &ChannelOp,
    all: &mut Intervals<Place>,
) -> Result<(), OutOfMemory>
    requires usable { IsTrue tree.now.usable }
    requires acked { AreLiveIntervals tree.now.refs acked.now }
    ensures gathers { let from = map (settled_interval (text_elements tree.now) 0) (placed_intervals tree.now.refs acked.now) in
        OnOk result (Gathers tree.now from (λ n. is_operation_on n op.now) all.old all.new) }
    ensures only { OnOk result (AddsNoOther (λ n. is_operation_on n op.now) all.old all.new) }
{
    match op {
        ChannelOp::Text(op) => add_changed(tree, acked, op, all),
        ChannelOp::Grid(_) => Ok(()),
    }
}
