//! Indexes of the acknowledged intervals, one for each label.

ghost use Rattle.std.specs.Prelude.{◌≡◌, ◌+◌, ◌*◌, ◌^◌, ◌≤◌, ℕ, [], ◌∷◌, Some, None, IsTrue, IfOk, OnOk, false, length, option_copied};
ghost use Rattle.ft_overlap.specs.Items.{AreKnown, IsInOrder, has_key, no_items};
ghost use Rattle.ft_props.specs.Keys.{Characters};
ghost use Rattle.ft_interval_store.specs.Ends.{AreLiveEnds};
ghost use Rattle.ft_interval_index.specs.Indexes.{AreAttached, Enlists, HasItems, IsRange, IsSameIndex, KeepsOtherLabels, PutsItem, TakesItem, Unlists, attached_ends, index_of, item_for, keys_meeting, labelled, labelled_if, list_in};
ghost use Rattle.ft_interval_index.specs.ByLabel.{labelled_by};
ghost use Rattle.ft_interval_index.specs.Order.{IsLiveIn, IsPlaced, list_place};
ghost use Rattle.ft_interval_store.specs.Shown.{shown_place};
ghost use Rattle.ft_interval_store.specs.State.{text_elements};

use crate::places::{ListPlaces, ShownPlaces};
use ft_base::{Datum, OutOfMemory, Steps, Text};
use ft_interval_store::intervals::EndPair;
use ft_overlap::{Index, Item};
use ft_refs::RefId;
use ft_tree::{TextContent, Tree};
use std::alloc::Global;
use std::collections::BTreeMap;
use std::marker::Model;
use std::sync::ledger::Ledger;

/// The indexes of all labels. That of a label has an item for each acknowledged interval with both ends on elements, whose key is
/// the reference at its start, with the interval's id. It is found in about the logarithm of the number of labels, and goes when
/// it has no items. Contracts see a list of indexes, by rising labels.
#[derive(Drop)]
pub struct Indexes {
    by_label: BTreeMap<String, Index>,
    alloc: Global,
}

impl Model for Indexes {
    ghost use Rattle.std.specs.Prelude.{List};
    ghost use Rattle.ft_interval_index.specs.Indexes.{LabelIndex};
    ghost use Rattle.ft_interval_index.specs.ByLabel.{labelled_by};

    ghost Value = { List LabelIndex };

    ghost view = { λ a. labelled_by a.by_label.entries };
}

// Adds the item of an interval with these references at its ends, and its id.
fn add_item(
    index: &mut Index,
    tree: &Tree<TextContent>,
    id: &Text,
    start: u64,
    end: u64,
) -> Result<(), OutOfMemory>
    requires known { AreKnown (IsPlaced tree.now) (item_for start end ∷ index.old.items) }
    requires order { IsInOrder (list_place tree.now.refs) index.old }
    requires fresh { has_key start index.old.items ≡ false }
    ensures { OnOk result ((label : Characters) → PutsItem tree.now.refs id.now start end (Some (labelled label index.old)) (Some (labelled label index.new))) }
{
    let item = Item {
        key: start,
        start,
        end,
    };
    index.insert(item, id.copy()?, &ListPlaces { tree })?;
    index.order_is_kept();
    Ok(())
}

// Takes the item with this key out, and its id.
fn take_item(index: &mut Index, tree: &Tree<TextContent>, start: u64)
    requires known { AreKnown (IsPlaced tree.now) index.old.items }
    requires order { IsInOrder (list_place tree.now.refs) index.old }
    ensures { (label : Characters) → TakesItem tree.now.refs start (Some (labelled label index.old)) (Some (labelled label index.new)) }
{
    let _ = index.remove(start, &ListPlaces { tree });
    index.order_is_kept();
}

impl Indexes {
    /// No indexes. It takes no memory.
    pub fn new(alloc: Global) -> Indexes
        ensures { result ≡ [] }
    {
        Indexes {
            by_label: BTreeMap::new(alloc),
            alloc,
        }
    }

    /// The index of the label, if it has one.
    pub fn of_label(&self, label: &Text) -> Option<&Index>
        ensures { labelled_if label.now (option_copied result) ≡ index_of label.now self.now }
    {
        self.by_label.get(label.as_str())
    }
}

// Makes an index of a label that has none, with the item of an interval with these references at its ends.
fn add_first(
    by_label: &mut BTreeMap<String, Index>,
    alloc: Global,
    tree: &Tree<TextContent>,
    label: &Text,
    id: &Text,
    start: u64,
    end: u64,
) -> Result<(), OutOfMemory>
    requires known { AreKnown (IsPlaced tree.now) (item_for start end ∷ []) }
    ensures puts { OnOk result (PutsItem tree.now.refs id.now start end None (index_of label.now (labelled_by by_label.new.entries))) }
    ensures others { OnOk result (KeepsOtherLabels label.now (labelled_by by_label.old.entries) (labelled_by by_label.new.entries)) }
{
    let mut index = Index::new(alloc);
    add_item(&mut index, tree, id, start, end)?;
    let text = String::from_str(alloc, label.as_str())?;
    let _ = by_label.insert(text, index)?;
    Ok(())
}

// Adds the item of an interval with these references at its ends to the index of its label.
fn add(
    by_label: &mut BTreeMap<String, Index>,
    alloc: Global,
    tree: &Tree<TextContent>,
    label: &Text,
    id: &Text,
    start: u64,
    end: u64,
) -> Result<(), OutOfMemory>
    requires known { AreKnown (IsPlaced tree.now) (item_for start end ∷ (list_in (index_of label.now (labelled_by by_label.old.entries))).items) }
    requires order { IsInOrder (list_place tree.now.refs) (list_in (index_of label.now (labelled_by by_label.old.entries))) }
    requires fresh { has_key start (list_in (index_of label.now (labelled_by by_label.old.entries))).items ≡ false }
    ensures puts { OnOk result (PutsItem tree.now.refs id.now start end (index_of label.now (labelled_by by_label.old.entries)) (index_of label.now (labelled_by by_label.new.entries))) }
    ensures others { OnOk result (KeepsOtherLabels label.now (labelled_by by_label.old.entries) (labelled_by by_label.new.entries)) }
{
    match by_label.get_mut(label.as_str()) {
        Some(index) => add_item(index, tree, id, start, end),
        None => add_first(by_label, alloc, tree, label, id, start, end),
    }
}

// Takes the item with this key, and its id, out of the index of the label.
fn take(by_label: &mut BTreeMap<String, Index>, tree: &Tree<TextContent>, label: &Text, start: u64)
    requires known { AreKnown (IsPlaced tree.now) (list_in (index_of label.now (labelled_by by_label.old.entries))).items }
    requires order { IsInOrder (list_place tree.now.refs) (list_in (index_of label.now (labelled_by by_label.old.entries))) }
    ensures takes { TakesItem tree.now.refs start (index_of label.now (labelled_by by_label.old.entries)) (index_of label.now (labelled_by by_label.new.entries)) }
    ensures others { KeepsOtherLabels label.now (labelled_by by_label.old.entries) (labelled_by by_label.new.entries) }
{
    if let Some(index) = by_label.get_mut(label.as_str()) {
        take_item(index, tree, start);
    }
}

// Whether the label has an index without items.
fn is_empty_at(by_label: &BTreeMap<String, Index>, label: &Text) -> bool
    ensures none { IsTrue result → index_of label.now (labelled_by by_label.now.entries) ≡ Some (labelled label.now no_items) }
    ensures some { result ≡ false → HasItems (index_of label.now (labelled_by by_label.now.entries)) }
{
    match by_label.get(label.as_str()) {
        Some(index) => index.is_empty(),
        None => false,
    }
}

// Drops the index of the label if it has no items.
fn drop_empty(by_label: &mut BTreeMap<String, Index>, label: &Text)
    ensures same { IsSameIndex (index_of label.now (labelled_by by_label.old.entries)) (index_of label.now (labelled_by by_label.new.entries)) }
    ensures others { KeepsOtherLabels label.now (labelled_by by_label.old.entries) (labelled_by by_label.new.entries) }
    ensures some { HasItems (index_of label.now (labelled_by by_label.new.entries)) }
{
    if is_empty_at(by_label, label) {
        let _ = by_label.remove(label.as_str());
    }
}

/// Makes no difference. An index is no deeper than so many items make it.
pub fn order_is_kept(index: Option<&Index>)
    ensures { (label : Characters) → (let list = list_in (labelled_if label (option_copied index.entry)) in 4 ^ list.depth ≤ length list.items + 1) }
{
    if let Some(x) = index {
        x.order_is_kept();
    }
}

// The references at both ends, if both are attached.
fn both_attached(tree: &Tree<TextContent>, ends: EndPair<RefId>) -> Option<(u64, u64)>
    requires usable { IsTrue tree.now.usable }
    requires live { AreLiveEnds tree.now.refs ends }
    ensures { result ≡ attached_ends tree.now.refs ends }
{
    let start = ends.start?;
    let end = ends.end?;
    tree.ref_at(start)?;
    tree.ref_at(end)?;
    Some((start.0 as u64, end.0 as u64))
}

/// Gives the interval of that label and id an item in the index of its label, if both of its ends are attached. If not, and the
/// label's index has no items, that goes.
pub fn enlist(
    indexes: &mut Indexes,
    tree: &Tree<TextContent>,
    label: &Text,
    id: &Text,
    ends: EndPair<RefId>,
) -> Result<(), OutOfMemory>
    requires usable { IsTrue tree.now.usable }
    requires live { AreLiveEnds tree.now.refs ends }
    requires known { (s e : ℕ) → AreAttached tree.now.refs ends s e → AreKnown (IsPlaced tree.now) (item_for s e ∷ (list_in (index_of label.now indexes.old)).items) }
    requires order { IsInOrder (list_place tree.now.refs) (list_in (index_of label.now indexes.old)) }
    requires fresh { (s e : ℕ) → AreAttached tree.now.refs ends s e → has_key s (list_in (index_of label.now indexes.old)).items ≡ false }
    ensures label { OnOk result (Enlists tree.now.refs id.now ends (index_of label.now indexes.old) (index_of label.now indexes.new)) }
    ensures others { OnOk result (KeepsOtherLabels label.now indexes.old indexes.new) }
    ensures some { OnOk result (HasItems (index_of label.now indexes.new)) }
{
    let Some((start, end)) = both_attached(tree, ends) else {
        drop_empty(&mut indexes.by_label, label);
        return Ok(());
    };
    add(
        &mut indexes.by_label,
        indexes.alloc,
        tree,
        label,
        id,
        start,
        end,
    )
}

/// Takes the item of an interval of that label with these ends out of the index of the label.
pub fn unlist(indexes: &mut Indexes, tree: &Tree<TextContent>, label: &Text, ends: &EndPair<RefId>)
    requires known { AreKnown (IsPlaced tree.now) (list_in (index_of label.now indexes.old)).items }
    requires order { IsInOrder (list_place tree.now.refs) (list_in (index_of label.now indexes.old)) }
    ensures label { Unlists tree.now.refs ends.now (index_of label.now indexes.old) (index_of label.now indexes.new) }
    ensures others { KeepsOtherLabels label.now indexes.old indexes.new }
{
    let Some(start) = ends.start else {
        return;
    };
    take(&mut indexes.by_label, tree, label, start.0 as u64);
}

/// A range of numbers.
#[derive(Clone, Copy)]
struct Range {
    low: i64,
    high: i64,
}

// The range from `a` to `b`, which meets no number where `a` is above all.
fn range_of(a: u64, b: u64) -> Range
    ensures { IsRange a b result.low result.high }
{
    let low = i64::try_from(a).unwrap_or(i64::MAX);
    if a > i64::MAX as u64 {
        return Range {
            low,
            high: i64::MIN,
        };
    }
    Range {
        low,
        high: i64::try_from(b).unwrap_or(i64::MAX),
    }
}

/// The keys of the intervals of the label that meet the places from `a` to `b`, as the client sees their ends.
pub fn found_keys<G: Ledger>(
    index: &Index,
    tree: &Tree<TextContent>,
    a: u64,
    b: u64,
    steps: &mut Steps<G>,
) -> Result<Vec<u64>, OutOfMemory>
    requires known { AreKnown (IsLiveIn tree.now) index.now.items }
    requires order { IsInOrder (shown_place (text_elements tree.now) tree.now.refs) index.now }
    ensures keys { IfOk result (λ keys. keys.items ≡ keys_meeting (shown_place (text_elements tree.now) tree.now.refs) a b index.now.items) }
    ensures cost { let k = length (keys_meeting (shown_place (text_elements tree.now) tree.now.refs) a b index.now.items) in
        steps.new ≤ steps.old + 9 * (index.now.depth + 1) * (k + 1) }
    ensures depth { 4 ^ index.now.depth ≤ length index.now.items + 1 }
{
    let range = range_of(a, b);
    index.query(range.low, range.high, &ShownPlaces { tree }, steps)
}
