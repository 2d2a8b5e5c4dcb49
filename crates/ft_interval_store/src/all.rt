//! All intervals as they are shown.

ghost use Rattle.std.specs.Prelude.{◌≡◌, ◌++◌, ◌≤◌, ℕ, List, All, [], IsTrue, IfOk, OnOk, map};
ghost use Rattle.std.specs.Ordering.{is_eq};
ghost use Rattle.std.specs.List.{AllZip};
ghost use Rattle.ft_interval_store.specs.declared.intervals.Interval.{Interval};
ghost use Rattle.ft_interval_store.specs.Ends.{AreLiveEnds, map_ends, places_of_ends};
ghost use Rattle.ft_interval_store.specs.Gathered.{Gathers, IsPartOf, is_on_any};
ghost use Rattle.ft_interval_store.specs.Intervals.{after_operation, is_on, name_cmp};
ghost use Rattle.ft_interval_store.specs.Named.{AddsNoOther, HasNoOther};
ghost use Rattle.ft_interval_store.specs.Shown.{carried, last, settled_end, settled_interval, shown_from, shown_intervals, shown_record};
ghost use Rattle.ft_interval_store.specs.Standing.{AreOnTree, HasNoRemoval, HasPlaces, IsCarriedInterval, ShowsAll, ShowsInterval, acked_record, record_at};
ghost use Rattle.ft_interval_store.specs.State.{AreLiveIntervals, AreLiveOperations, StagesRise, placed_intervals, placed_operations, text_elements, with_mapped_ends};

use crate::intervals::{Held, Interval, Intervals};
use crate::pages::Pages;
use crate::pending::Operation;
use crate::standing::{carried, removal_until, settled, shown_numbers};
use ft_base::moved::{all_three, push};
use ft_base::{Datum, OutOfMemory, Text};
use ft_op::TextOp;
use ft_refs::{Place, RefId};
use ft_sumdoc::{Ends2, IntervalRec};
use ft_tree::{TextContent, Tree};
use std::alloc::Global;
use std::collections::VecDeque;

// The interval at stage 0, with its ends as elements that this sees.
fn placed(tree: &Tree<TextContent>, i: &Interval<RefId>) -> Result<Interval<Place>, OutOfMemory>
    requires usable { IsTrue tree.now.usable }
    requires live { AreLiveEnds tree.now.refs i.now.ends }
    ensures { let xs = text_elements tree.now in
        IfOk result (ShowsInterval tree.now 0 (settled_interval xs 0 (with_mapped_ends (places_of_ends tree.now.refs) i.now))) }
{
    let (label, id, props) = all_three(i.label.copy(), i.id.copy(), i.props.copy())?;
    Ok(Interval {
        label,
        id,
        ends: settled(tree, i.ends, 0),
        props,
    })
}

// The same on the heap.
fn placed_on_heap(
    alloc: Global,
    tree: &Tree<TextContent>,
    i: &Held<RefId>,
) -> Result<Held<Place>, OutOfMemory>
    requires usable { IsTrue tree.now.usable }
    requires live { AreLiveEnds tree.now.refs i.now.ends }
    ensures { let xs = text_elements tree.now in
        IfOk result (ShowsInterval tree.now 0 (settled_interval xs 0 (with_mapped_ends (places_of_ends tree.now.refs) i.now))) }
{
    let interval = placed(tree, i.get())?;
    let held = Held::new(alloc, interval)?;
    Ok(held)
}

// Those of a page at stage 0, with their ends as elements that this sees.
fn placed_page(
    alloc: Global,
    tree: &Tree<TextContent>,
    page: &[Held<RefId>],
) -> Result<Vec<Held<Place>>, OutOfMemory>
    requires usable { IsTrue tree.now.usable }
    requires live { AreLiveIntervals tree.now.refs page.now }
    ensures { let xs = text_elements tree.now in
        IfOk result (λ items. ShowsAll tree.now 0 (map (settled_interval xs 0) (placed_intervals tree.now.refs page.now)) items.items) }
{
    let mut items = Vec::with_capacity(alloc, page.len())?;
    for i in page {
        push(&mut items, placed_on_heap(alloc, tree, i)?)?;
    }
    Ok(items)
}

/// The intervals at stage 0, with their ends as elements that this sees.
pub fn first_places(
    tree: &Tree<TextContent>,
    acked: &Intervals<RefId>,
) -> Result<Intervals<Place>, OutOfMemory>
    requires usable { IsTrue tree.now.usable }
    requires live { AreLiveIntervals tree.now.refs acked.now }
    ensures { let xs = text_elements tree.now in
        IfOk result (ShowsAll tree.now 0 (map (settled_interval xs 0) (placed_intervals tree.now.refs acked.now))) }
{
    let alloc = acked.allocator();
    let mut items = Pages::new(alloc);
    let pages = acked.pages();
    for page in pages {
        items.push_page(placed_page(alloc, tree, page)?)?;
    }
    Ok(Intervals { items })
}

// Takes the interval from stage `from` to stage `to`.
fn carry(tree: &Tree<TextContent>, i: &mut Held<Place>, from: u64, to: u64)
    requires usable { IsTrue tree.now.usable }
    requires on_leaf { AreOnTree tree.now i.old.ends }
    requires rises { from ≤ to }
    ensures { IsCarriedInterval tree.now from to i.old i.new }
{
    i.set_ends(carried(tree, i.ends(), from, to));
}

// Takes the intervals of a page from stage `from` to stage `to`.
fn carry_page(tree: &Tree<TextContent>, page: &mut [Held<Place>], from: u64, to: u64)
    requires usable { IsTrue tree.now.usable }
    requires on_leaf { All (HasPlaces tree.now) page.old }
    requires rises { from ≤ to }
    ensures { AllZip (IsCarriedInterval tree.now from to) page.old page.new }
{
    for i in page.iter_mut() {
        carry(tree, i, from, to);
    }
}

// Takes the intervals of all pages from stage `from` to stage `to`.
fn carry_pages(tree: &Tree<TextContent>, items: &mut Pages<Held<Place>>, from: u64, to: u64)
    requires usable { IsTrue tree.now.usable }
    requires on_leaf { All (HasPlaces tree.now) items.old }
    requires rises { from ≤ to }
    ensures { AllZip (IsCarriedInterval tree.now from to) items.old items.new }
{
    for page in items.pages.iter_mut() {
        carry_page(tree, page, from, to);
    }
}

// Takes all intervals from stage `from` to stage `to`, one after another.
fn carry_each(tree: &Tree<TextContent>, all: &mut Intervals<Place>, from: u64, to: u64)
    requires usable { IsTrue tree.now.usable }
    requires on_leaf { All (HasPlaces tree.now) all.old }
    requires rises { from ≤ to }
    ensures { AllZip (IsCarriedInterval tree.now from to) all.old all.new }
{
    carry_pages(tree, &mut all.items, from, to);
}

/// Takes all intervals from stage `from` to stage `to`. Where no stage between removes elements, they stay as they are.
pub fn carry_all(tree: &Tree<TextContent>, all: &mut Intervals<Place>, from: u64, to: u64)
    requires usable { IsTrue tree.now.usable }
    requires on_leaf { All (HasPlaces tree.now) all.old }
    requires rises { from ≤ to }
    ensures { AllZip (IsCarriedInterval tree.now from to) all.old all.new }
{
    if removal_until(tree, from, to).is_none() {
        return;
    }
    carry_each(tree, all, from, to);
}

/// Takes all intervals from stage `from` to the stage of the operation, and applies that.
pub fn take_next(
    tree: &Tree<TextContent>,
    all: &mut Intervals<Place>,
    t: &Operation,
    from: u64,
) -> Result<(), OutOfMemory>
    requires usable { IsTrue tree.now.usable }
    requires live { AreLiveEnds tree.now.refs t.now.ends }
    requires on_leaf { All (HasPlaces tree.now) all.old }
    requires rises { from ≤ t.now.stage }
    ensures fits { t.now.stage ≤ last }
    ensures shown { let xs = text_elements tree.now in
        let ends = map_ends (settled_end xs t.now.stage) (places_of_ends tree.now.refs t.now.ends) in
        (is : List (Interval ℕ)) → ShowsAll tree.now from is all.old
        → OnOk result (ShowsAll tree.now t.now.stage (after_operation t.now.op ends (carried xs from t.now.stage is)) all.new) }
{
    carry_all(tree, all, from, t.stage);
    all.follow(&t.op, settled(tree, t.ends, t.stage))
}

// The interval as it is shown.
fn record_at(tree: &Tree<TextContent>, i: Interval<Place>) -> IntervalRec
    requires usable { IsTrue tree.now.usable }
    requires on_leaf { AreOnTree tree.now i.ends }
    ensures { result ≡ record_at tree.now i }
{
    let ends = shown_numbers(tree, i.ends);
    IntervalRec {
        label: i.label,
        id: i.id,
        ends: Ends2 {
            start: ends.start,
            end: ends.end,
        },
        props: i.props,
    }
}

// Adds the intervals of a page as they are shown.
//
// Returns `OutOfMemory` where there is no room for them.
fn add_records(
    tree: &Tree<TextContent>,
    page: Vec<Held<Place>>,
    records: &mut Vec<IntervalRec>,
) -> Result<(), OutOfMemory>
    requires usable { IsTrue tree.now.usable }
    requires on_leaf { All (HasPlaces tree.now) page.items }
    ensures { OnOk result (records.new.items ≡ records.old.items ++ map (record_at tree.now) page.items) }
{
    for i in page {
        push(records, record_at(tree, i.into_interval()))?;
    }
    Ok(())
}

/// The intervals as they are shown.
pub fn records(
    tree: &Tree<TextContent>,
    all: Intervals<Place>,
) -> Result<Vec<IntervalRec>, OutOfMemory>
    requires usable { IsTrue tree.now.usable }
    requires on_leaf { All (HasPlaces tree.now) all }
    ensures { IfOk result (λ records. records.items ≡ map (record_at tree.now) all) }
{
    let mut records = Vec::with_capacity(all.allocator(), all.items.len())?;
    for page in all.items.into_pages() {
        add_records(tree, page, &mut records)?;
    }
    Ok(records)
}

/// Whether nothing is pending on intervals and no stage removes elements, so that each is shown as it is acknowledged.
pub fn is_at_rest(tree: &Tree<TextContent>, pending: &VecDeque<Operation>) -> bool
    requires usable { IsTrue tree.now.usable }
    ensures { IsTrue result → (pending.now.items ≡ []) × HasNoRemoval tree.now }
{
    pending.is_empty() && removal_until(tree, 0, u64::MAX).is_none()
}

// The interval as it is shown where nothing is pending on it and no stage removes elements.
fn acked_record(tree: &Tree<TextContent>, i: &Interval<RefId>) -> Result<IntervalRec, OutOfMemory>
    requires usable { IsTrue tree.now.usable }
    requires live { AreLiveEnds tree.now.refs i.now.ends }
    requires still { HasNoRemoval tree.now }
    ensures { IfOk result (λ r. r ≡ acked_record tree.now i.now) }
{
    let interval = placed(tree, i)?;
    Ok(record_at(tree, interval))
}

// Adds the intervals of a page as they are shown there.
//
// Returns `OutOfMemory` where there is no room for them.
fn add_acked_records(
    tree: &Tree<TextContent>,
    page: &[Held<RefId>],
    records: &mut Vec<IntervalRec>,
) -> Result<(), OutOfMemory>
    requires usable { IsTrue tree.now.usable }
    requires live { AreLiveIntervals tree.now.refs page.now }
    requires still { HasNoRemoval tree.now }
    ensures { OnOk result (records.new.items ≡ records.old.items ++ map (acked_record tree.now) page.now) }
{
    for i in page {
        push(records, acked_record(tree, i.get())?)?;
    }
    Ok(())
}

/// The intervals as they are shown where nothing is pending on them and no stage removes elements.
pub fn acked_records(
    tree: &Tree<TextContent>,
    acked: &Intervals<RefId>,
) -> Result<Vec<IntervalRec>, OutOfMemory>
    requires usable { IsTrue tree.now.usable }
    requires live { AreLiveIntervals tree.now.refs acked.now }
    requires still { HasNoRemoval tree.now }
    ensures { let xs = text_elements tree.now in
        IfOk result (λ all. all.items ≡ map (shown_record xs) (shown_intervals xs (placed_intervals tree.now.refs acked.now) [])) }
{
    let mut records = Vec::with_capacity(acked.allocator(), acked.items.len())?;
    let pages = acked.pages();
    for page in pages {
        add_acked_records(tree, page, &mut records)?;
    }
    Ok(records)
}

/// These intervals at stage 0 as they are shown behind all pending operations.
///
/// It goes over all of them once for each run of operations between which stages remove elements, and looks at the leaves of
/// their ends at each such stage.
pub fn shown_behind(
    tree: &Tree<TextContent>,
    first: Intervals<Place>,
    pending: &VecDeque<Operation>,
) -> Result<Vec<IntervalRec>, OutOfMemory>
    requires usable { IsTrue tree.now.usable }
    requires shown { (is : List (Interval ℕ)) × ShowsAll tree.now 0 is first }
    requires pending { AreLiveOperations tree.now.refs pending.now.items }
    requires rising { StagesRise 0 pending.now.items }
    ensures { let xs = text_elements tree.now in
        (is : List (Interval ℕ)) → ShowsAll tree.now 0 is first
        → IfOk result (λ all. all.items ≡ map (shown_record xs) (shown_from xs 0 (placed_operations tree.now.refs pending.now.items) is)) }
{
    let mut all = first;
    let mut stage = 0;
    let mut i = 0;
    'next: while i < pending.len() {
        let t = &pending[i];
        take_next(tree, &mut all, t, stage)?;
        stage = t.stage;
        i += 1;
    }
    carry_all(tree, &mut all, stage, u64::MAX);
    records(tree, all)
}

/// Adds the acknowledged interval of that label and id, at stage 0, if it is there.
pub fn add_named(
    tree: &Tree<TextContent>,
    acked: &Intervals<RefId>,
    label: &Text,
    id: &Text,
    all: &mut Intervals<Place>,
) -> Result<(), OutOfMemory>
    requires usable { IsTrue tree.now.usable }
    requires acked { AreLiveIntervals tree.now.refs acked.now }
    ensures gathers { let from = map (settled_interval (text_elements tree.now) 0) (placed_intervals tree.now.refs acked.now) in
        OnOk result (Gathers tree.now from (λ n. is_eq (name_cmp n (label.now, id.now))) all.old all.new) }
    ensures only { OnOk result (AddsNoOther (λ n. is_eq (name_cmp n (label.now, id.now))) all.old all.new) }
{
    if let Some(i) = acked.get(label, id) {
        all.put(placed(tree, i)?)?;
    }
    Ok(())
}

/// Adds the acknowledged interval that the operation is on, at stage 0, if it is there.
pub fn add_changed(
    tree: &Tree<TextContent>,
    acked: &Intervals<RefId>,
    op: &TextOp,
    all: &mut Intervals<Place>,
) -> Result<(), OutOfMemory>
    requires usable { IsTrue tree.now.usable }
    requires acked { AreLiveIntervals tree.now.refs acked.now }
    ensures gathers { let from = map (settled_interval (text_elements tree.now) 0) (placed_intervals tree.now.refs acked.now) in
        OnOk result (Gathers tree.now from (λ n. is_on n op.now) all.old all.new) }
    ensures only { OnOk result (AddsNoOther (λ n. is_on n op.now) all.old all.new) }
{
    match op {
        TextOp::IntervalAdd { label, id, .. } => add_named(tree, acked, label, id, all),
        TextOp::IntervalChange { label, id, .. } => add_named(tree, acked, label, id, all),
        TextOp::IntervalDelete { label, id } => add_named(tree, acked, label, id, all),
        TextOp::One(_) | TextOp::Group(_) => Ok(()),
    }
}

/// The acknowledged intervals that pending operations are on, at stage 0.
pub fn places_of_pending(
    tree: &Tree<TextContent>,
    acked: &Intervals<RefId>,
    pending: &VecDeque<Operation>,
) -> Result<Intervals<Place>, OutOfMemory>
    requires usable { IsTrue tree.now.usable }
    requires acked { AreLiveIntervals tree.now.refs acked.now }
    ensures part { let from = map (settled_interval (text_elements tree.now) 0) (placed_intervals tree.now.refs acked.now) in
        IfOk result (λ all. (is : List (Interval ℕ)) × ShowsAll tree.now 0 is all × IsPartOf from is (λ n. is_on_any n pending.now.items)) }
    ensures fits { OnOk result (All (λ t. t.stage ≤ last) pending.now.items) }
    ensures only { IfOk result (λ all. HasNoOther (λ n. is_on_any n pending.now.items) all) }
{
    let mut all = Intervals::new(acked.allocator());
    let mut i = 0;
    'next: while i < pending.len() {
        let t = &pending[i];
        // That the stage is a number of 64 bits is read off its contract.
        let _stage = t.stage();
        add_changed(tree, acked, &t.op, &mut all)?;
        i += 1;
    }
    Ok(all)
}
