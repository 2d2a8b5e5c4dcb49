//! Ends as elements on leaves, which stages settle one after another.

ghost use Rattle.std.specs.Prelude.{◌≡◌, ◌≤◌, IsTrue};
ghost use Rattle.ft_tree_leaves.specs.Edits.{next_removal_above};
ghost use Rattle.ft_tree_leaves.specs.References.{IsReferenceIn};
ghost use Rattle.ft_interval_store.specs.declared.intervals.EndPair.{EndPair};
ghost use Rattle.ft_interval_store.specs.Ends.{AreLiveEnds, IsLiveEnd, map_ends, place_of_end, places_of_ends};
ghost use Rattle.ft_interval_store.specs.Numbers.{number_of, until};
ghost use Rattle.ft_interval_store.specs.Shown.{last, numbers_at, settled_end, shown_place};
ghost use Rattle.ft_interval_store.specs.Standing.{AreOnTree, IsCarried, IsOnTree, StandAt, StandsAt, end_place, end_places};
ghost use Rattle.ft_interval_store.specs.State.{text_elements};

use crate::intervals::EndPair;
use crate::numbers::{ends_of_numbers, number};
use ft_op::Ends;
use ft_refs::{Place, RefId};
use ft_tree::{TextContent, Tree};

/// The next stage above `from` that marks an element as removed, if it isn't above `to`.
pub fn removal_until(tree: &Tree<TextContent>, from: u64, to: u64) -> Option<u64>
    requires { IsTrue tree.now.usable }
    ensures { result ≡ until to (next_removal_above from (text_elements tree.now)) }
{
    let k = tree.next_removal(from)?;
    if k <= to { Some(k) } else { None }
}

// The element of an end.
fn end_at(tree: &Tree<TextContent>, end: Option<RefId>) -> Option<Place>
    requires usable { IsTrue tree.now.usable }
    requires live { IsLiveEnd tree.now.refs end }
    ensures on_leaf { IsOnTree tree.now result }
    ensures place { end_place tree.now result ≡ place_of_end tree.now.refs end }
{
    tree.ref_at(end?)
}

// The element of an end as it is settled at the stage.
fn settled_at(tree: &Tree<TextContent>, at: Option<Place>, stage: u64) -> Option<Place>
    requires usable { IsTrue tree.now.usable }
    requires on_leaf { IsOnTree tree.now at }
    ensures { StandsAt tree.now stage (settled_end (text_elements tree.now) stage (end_place tree.now at)) result }
{
    let place = at?;
    tree.settled_at(&place, stage)
}

// The same of an end that is a reference.
fn settled_end(tree: &Tree<TextContent>, end: Option<RefId>, stage: u64) -> Option<Place>
    requires usable { IsTrue tree.now.usable }
    requires live { IsLiveEnd tree.now.refs end }
    ensures { StandsAt tree.now stage (settled_end (text_elements tree.now) stage (place_of_end tree.now.refs end)) result }
{
    settled_at(tree, end_at(tree, end), stage)
}

/// The same of both ends.
pub fn settled(tree: &Tree<TextContent>, ends: EndPair<RefId>, stage: u64) -> EndPair<Place>
    requires usable { IsTrue tree.now.usable }
    requires live { AreLiveEnds tree.now.refs ends }
    ensures { StandAt tree.now stage (map_ends (settled_end (text_elements tree.now) stage) (places_of_ends tree.now.refs ends)) result }
{
    EndPair {
        start: settled_end(tree, ends.start, stage),
        end: settled_end(tree, ends.end, stage),
    }
}

// The element of an end at stage `to`, after each stage behind `from` settled it in turn.
//
// It goes only over the stages that remove elements, and at each of them looks at the leaf of the element alone unless that
// is removed.
fn carried_end(tree: &Tree<TextContent>, at: Option<Place>, from: u64, to: u64) -> Option<Place>
    requires usable { IsTrue tree.now.usable }
    requires on_leaf { IsOnTree tree.now at }
    requires rises { from ≤ to }
    ensures { IsCarried tree.now from to at result }
{
    let mut place = at;
    let mut stage = from;
    while let Some(k) = removal_until(tree, stage, to) {
        place = settled_at(tree, place, k);
        stage = k;
    }
    place
}

/// The same of both ends.
pub fn carried(tree: &Tree<TextContent>, ends: EndPair<Place>, from: u64, to: u64) -> EndPair<Place>
    requires usable { IsTrue tree.now.usable }
    requires on_leaf { AreOnTree tree.now ends }
    requires rises { from ≤ to }
    ensures start { IsCarried tree.now from to ends.start result.start }
    ensures end { IsCarried tree.now from to ends.end result.end }
{
    EndPair {
        start: carried_end(tree, ends.start, from, to),
        end: carried_end(tree, ends.end, from, to),
    }
}

// The number of an end among the elements that the client sees: None where it is detached.
fn last_number(tree: &Tree<TextContent>, at: Option<Place>) -> Option<u64>
    requires usable { IsTrue tree.now.usable }
    requires on_leaf { IsOnTree tree.now at }
    ensures { result ≡ number_of (text_elements tree.now) last (end_place tree.now at) }
{
    let place = at?;
    Some(tree.number_at(&place, u64::MAX))
}

// Whether both are one element.
fn is_same_place(first: &Place, second: &Place) -> bool
    ensures { IsTrue result → first.now ≡ second.now }
{
    first.owner == second.owner && first.offset == second.offset
}

// Whether both ends are on one element.
fn are_on_one(ends: &EndPair<Place>) -> bool
    ensures { IsTrue result → ends.now.start ≡ ends.now.end }
{
    match (&ends.start, &ends.end) {
        (Some(first), Some(second)) => is_same_place(first, second),
        _ => false,
    }
}

// The number of the second end, where the first one has that number.
fn second_number(tree: &Tree<TextContent>, ends: &EndPair<Place>, first: Option<u64>) -> Option<u64>
    requires usable { IsTrue tree.now.usable }
    requires on_leaf { AreOnTree tree.now ends.now }
    requires first { first ≡ number_of (text_elements tree.now) last (end_place tree.now ends.now.start) }
    ensures { result ≡ number_of (text_elements tree.now) last (end_place tree.now ends.now.end) }
{
    if are_on_one(ends) {
        return first;
    }
    last_number(tree, ends.end)
}

/// The ends as such numbers, -1 where they are detached. Where both are on one element, it goes up from its leaf once.
pub fn shown_numbers(tree: &Tree<TextContent>, ends: EndPair<Place>) -> Ends
    requires usable { IsTrue tree.now.usable }
    requires on_leaf { AreOnTree tree.now ends }
    ensures { result ≡ numbers_at (text_elements tree.now) last (end_places tree.now ends) }
{
    let start = last_number(tree, ends.start);
    let end = second_number(tree, &ends, start);
    ends_of_numbers(EndPair { start, end })
}

/// The number of the reference's element among those that the client sees, after all stages settled it one after another: -1 where
/// it is detached.
pub fn shown_number(tree: &Tree<TextContent>, r: RefId) -> i64
    requires usable { IsTrue tree.now.usable }
    requires live { IsReferenceIn tree.now.refs r }
    ensures { result ≡ shown_place (text_elements tree.now) tree.now.refs r }
{
    let place = settled_end(tree, Some(r), 0);
    number(last_number(tree, carried_end(tree, place, 0, u64::MAX)))
}
