//! The intervals that meet a range, gathered by the index of their label.

ghost use Rattle.std.specs.Prelude.{◌≡◌, ◌⊎◌, ◌≤◌, ◌+◌, ◌*◌, ◌^◌, ◌&&◌, ◌||◌, ℕ, List, All, Some, IsTrue, IfOk, OnOk, filter, length, map, option_copied};
ghost use Rattle.std.specs.Ordering.{is_eq};
ghost use Rattle.ft_overlap.specs.Items.{AreKnown, IsInOrder, id_at};
ghost use Rattle.ft_props.specs.Keys.{text_cmp};
ghost use Rattle.ft_sumdoc.specs.Meeting.{meets};
ghost use Rattle.ft_tree.specs.State.{TreeState};
ghost use Rattle.ft_tree_leaves.specs.declared.text.TextContent.{TextContent};
ghost use Rattle.ft_interval_store.specs.declared.intervals.Interval.{Interval};
ghost use Rattle.ft_interval_store.specs.Gathered.{Gathers, IsPartOf, is_on_any};
ghost use Rattle.ft_interval_store.specs.Intervals.{has_label};
ghost use Rattle.ft_interval_store.specs.Shown.{last, settled_interval, shown_intervals, shown_place, shown_record};
ghost use Rattle.ft_interval_store.specs.Standing.{ShowsAll};
ghost use Rattle.ft_interval_store.specs.State.{IsLive, ends_of_name, placed, placed_intervals, text_elements};
ghost use Rattle.ft_interval_index.specs.Indexes.{AreListed, index_of, is_found, is_id, is_met, keys_meeting, labelled, labelled_if, list_in};
ghost use Rattle.ft_interval_index.specs.Order.{IsLiveIn};

use crate::indexes::{Indexes, found_keys, order_is_kept};
use ft_base::{OutOfMemory, Steps, Text};
use ft_interval_store::Store;
use ft_interval_store::intervals::Intervals;
use ft_overlap::Index;
use ft_refs::Place;
use ft_sumdoc::IntervalRec;
use ft_sumdoc::meeting::meets;
use ft_tree::{TextContent, Tree};
use std::sync::ledger::Ledger;

// Adds the acknowledged interval of the label with this key in its index, at stage 0, if there is one.
fn add_found_one(
    store: &Store,
    tree: &Tree<TextContent>,
    label: &Text,
    index: &Index,
    key: &u64,
    all: &mut Intervals<Place>,
) -> Result<(), OutOfMemory>
    requires usable { IsTrue tree.now.usable }
    requires live { IsLive tree.now.refs store.now }
    ensures { let from = map (settled_interval (text_elements tree.now) 0) (placed_intervals tree.now.refs store.now.acked) in
        OnOk result (Gathers tree.now from (λ n. is_eq (text_cmp n.0 label.now) && is_id n.1 (id_at key.now index.now.ids)) all.old all.new) }
{
    match index.id_of(*key) {
        Some(id) => store.add_named(tree, label, id, all),
        None => Ok(()),
    }
}

// Adds the acknowledged intervals of the label with these keys in its index, at stage 0.
fn add_found(
    store: &Store,
    tree: &Tree<TextContent>,
    label: &Text,
    index: &Index,
    keys: &[u64],
    all: &mut Intervals<Place>,
) -> Result<(), OutOfMemory>
    requires usable { IsTrue tree.now.usable }
    requires live { IsLive tree.now.refs store.now }
    ensures { let from = map (settled_interval (text_elements tree.now) 0) (placed_intervals tree.now.refs store.now.acked) in
        OnOk result (Gathers tree.now from (λ n. is_found n (labelled label.now index.now) keys.now) all.old all.new) }
{
    for key in keys {
        add_found_one(store, tree, label, index, key, all)?;
    }
    Ok(())
}

// Adds the acknowledged intervals of the label that meet the places from `a` to `b`, by its index, at stage 0.
fn add_met<G: Ledger>(
    store: &Store,
    tree: &Tree<TextContent>,
    label: &Text,
    index: &Index,
    a: u64,
    b: u64,
    steps: &mut Steps<G>,
    all: Intervals<Place>,
) -> Result<Intervals<Place>, OutOfMemory>
    requires usable { IsTrue tree.now.usable }
    requires live { IsLive tree.now.refs store.now }
    requires known { AreKnown (IsLiveIn tree.now) index.now.items }
    requires order { IsInOrder (shown_place (text_elements tree.now) tree.now.refs) index.now }
    ensures part { let from = map (settled_interval (text_elements tree.now) 0) (placed_intervals tree.now.refs store.now.acked) in
        IfOk result (Gathers tree.now from (λ n. is_met (shown_place (text_elements tree.now) tree.now.refs) a b n (Some (labelled label.now index.now))) all) }
    ensures cost { let k = length (keys_meeting (shown_place (text_elements tree.now) tree.now.refs) a b index.now.items) in
        steps.new ≤ steps.old + 9 * (index.now.depth + 1) * (k + 1) }
{
    let keys = found_keys(index, tree, a, b, steps)?;
    let mut all = all;
    add_found(store, tree, label, index, keys.as_slice(), &mut all)?;
    Ok(all)
}

// The acknowledged intervals at stage 0 that pending operations are on, or that the index says to meet the places from `a` to
// `b`. A read of a node of the index is one step. It reads none before it knows the stages of all pending operations.
fn gathered<G: Ledger>(
    store: &Store,
    tree: &Tree<TextContent>,
    label: &Text,
    index: Option<&Index>,
    a: u64,
    b: u64,
    steps: &mut Steps<G>,
) -> Result<Intervals<Place>, OutOfMemory>
    requires usable { IsTrue tree.now.usable }
    requires live { IsLive tree.now.refs store.now }
    requires known { AreKnown (IsLiveIn tree.now) (list_in (labelled_if label.now (option_copied index))).items }
    requires order { IsInOrder (shown_place (text_elements tree.now) tree.now.refs) (list_in (labelled_if label.now (option_copied index))) }
    ensures part { let from = map (settled_interval (text_elements tree.now) 0) (placed_intervals tree.now.refs store.now.acked) in
        IfOk result (λ all. (is : List (Interval ℕ)) × ShowsAll tree.now 0 is all
        × IsPartOf from is (λ n. is_on_any n store.now.pending || is_met (shown_place (text_elements tree.now) tree.now.refs) a b n (labelled_if label.now (option_copied index.entry)))) }
    ensures fits { OnOk result (All (λ t. t.stage ≤ last) store.now.pending) }
    ensures cost { let list = list_in (labelled_if label.now (option_copied index.entry)) in
        let k = length (keys_meeting (shown_place (text_elements tree.now) tree.now.refs) a b list.items) in
        (steps.new ≡ steps.old) ⊎ (All (λ t. t.stage ≤ last) store.now.pending × (steps.new ≤ steps.old + 9 * (list.depth + 1) * (k + 1))) }
{
    let all = store.places_of_pending(tree)?;
    match index {
        Some(index) => add_met(store, tree, label, index, a, b, steps, all),
        None => Ok(all),
    }
}

// The index of the label, if it has one. It is no deeper than so many intervals of the label make it.
fn index_of_label<'a>(store: &Store, indexes: &'a Indexes, label: &Text) -> Option<&'a Index>
    requires { (tree : TreeState TextContent) × AreListed (length (text_elements tree)) tree.refs (λ n. ends_of_name n store.now.acked) indexes.now }
    ensures index { labelled_if label.now (option_copied result) ≡ index_of label.now indexes.now }
    ensures depth { let list = list_in (index_of label.now indexes.now) in 4 ^ list.depth ≤ length list.items + 1 }
    ensures few { length (list_in (index_of label.now indexes.now)).items ≤ length store.now.acked }
    ensures labelled { length (list_in (index_of label.now indexes.now)).items ≤ length (filter (has_label label.now) store.now.acked) }
{
    // That names rise is read off its contract.
    let _first = store.first_stage();
    let index = indexes.of_label(label);
    // How deep the index is is read off its contract.
    order_is_kept(index);
    index
}

/// The intervals of the label as they are shown that meet the places from `a` to `b`, by rising id: those that aren't
/// detached, start at or before `b` and end at or after `a`. A read of a node of an index is one step.
pub fn overlapping<G: Ledger>(
    store: &Store,
    indexes: &Indexes,
    tree: &Tree<TextContent>,
    label: &Text,
    a: u64,
    b: u64,
    steps: &mut Steps<G>,
) -> Result<Vec<IntervalRec>, OutOfMemory>
    requires usable { IsTrue tree.now.usable }
    requires live { IsLive tree.now.refs store.now }
    requires listed { AreListed (length (text_elements tree.now)) tree.now.refs (λ n. ends_of_name n store.now.acked) indexes.now }
    requires order { a ≤ b }
    ensures found { let xs = text_elements tree.now in
        let c = placed tree.now.refs store.now in
        IfOk result (λ found. found.items ≡ filter (meets label.now a b) (map (shown_record xs) (shown_intervals xs c.acked c.pending))) }

    // For each interval that is found or pending, and once more, it reads a few nodes on each level of the label's index.
    ensures cost { let xs = text_elements tree.now in
        let c = placed tree.now.refs store.now in
        let k = length (filter (meets label.now a b) (map (shown_record xs) (shown_intervals xs c.acked c.pending))) in
        let depth = (list_in (index_of label.now indexes.now)).depth in
        steps.new ≤ steps.old + 9 * (depth + 1) * (k + length store.now.pending + 1) }
    ensures depth { let list = list_in (index_of label.now indexes.now) in 4 ^ list.depth ≤ length list.items + 1 }
    ensures few { length (list_in (index_of label.now indexes.now)).items ≤ length store.now.acked }
    ensures labelled { length (list_in (index_of label.now indexes.now)).items ≤ length (filter (has_label label.now) store.now.acked) }
{
    // That names and stages rise is read off its contract.
    let _first = store.first_stage();
    let index = index_of_label(store, indexes, label);
    let first = gathered(store, tree, label, index, a, b, steps)?;
    let mut found = store.shown_behind(tree, first)?;
    found.retain(|i| meets(i, label, a, b));
    Ok(found)
}
