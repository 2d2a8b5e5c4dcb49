//! Whether what stands beside a change is seen at each stage, so that no end of an interval passes the change as it settles.

ghost use Rattle.std.specs.Prelude.{◌≡◌, ◌||◌, ◌<◌, ◌≤◌, IsTrue, Some, drop, length, not, reverse, take, true};
ghost use Rattle.ft_base.specs.Scan.{len};
ghost use Rattle.ft_block.specs.declared.leaves.LenView.TheVariants.{All};
ghost use Rattle.ft_block.specs.Leaves.{IsFromFloor, IsLeafIn, IsPlaceIn};
ghost use Rattle.ft_tree_leaves.specs.Elements.{is_pending, seen_in};
ghost use Rattle.ft_tree_leaves.specs.LeafLists.{elements};
ghost use Rattle.ft_tree_blocks.specs.Walks.{from_place};
ghost use Rattle.ft_tree_steps.specs.LeafSteps.{IsInLeaf, held_place};
ghost use Rattle.ft_changes.specs.Beside.{first_passes, passes_beside_place, passes_beside_range};
ghost use Rattle.ft_changes.specs.ShownRuns.{shown_in_run};
ghost use Rattle.ft_tree_changes.specs.Fronts.{IsFront};
ghost use Rattle.ft_tree_changes.specs.StandingElements.{IsFreePlace, is_always_seen, is_standing, pass_from_front, stamps_always_seen, stamps_stand};

use crate::fronts::{Front, count_if, front_of, part_within};
use crate::insertions::is_pending;
use ft_arena::NodeId;
use ft_base::Element;
use ft_block::LenView;
use ft_tree::{Content, Tree};
use ft_tree_leaves::stamps::has_sequenced;

/// How many leaves side by side that a sequenced removal took a look to one side passes at most: what stands behind more of them
/// counts as not seen.
const MOST_PASSED: usize = 16;

/// Whether those that stand on both sides of an insertion directly after the `p`-th element that `view` sees, or at the head for
/// 0, and past the run of pending elements there, are seen at each stage. An element stands that no sequenced removal took.
///
/// It says no for some places where they are: beside sixteen leaves side by side that don't stand, and within a leaf that
/// doesn't. It goes down to the place, and over the leaves beside it.
pub fn passes_beside_place<C: Content>(tree: &Tree<C>, p: u64, view: LenView) -> bool
    requires usable { IsTrue tree.now.usable }
    requires floor { IsFromFloor tree.now.floor view }
    requires within { p ≤ len (seen_in view) (elements C.units C.by tree.now.leaves) }
    ensures { let all = elements C.units C.by tree.now.leaves in
        IsTrue result → passes_beside_place (seen_in view) is_pending is_standing is_always_seen p all ≡ true }
{
    let first = tree.first_leaf();
    let Some(found) = tree.find(p, view) else {
        unreachable!()
    };
    match found.leaf {
        Some(id) => passes_beside_leaf(tree, id, found.offset),
        None => passes_from(tree, first),
    }
}

/// Whether those that stand beside the runs of the elements that `view` sees from the `p`-th, counted from 0, up to before the
/// `q`-th are seen at each stage.
///
/// It says no for some ranges where they are: beside sixteen leaves side by side that don't stand, and where a leaf stands
/// between the first and the last one of the range, or is in it in part, and isn't seen at each stage. It goes down to the
/// first of them, and from there over the leaves up to the one behind the last.
pub fn passes_beside_range<C: Content>(tree: &Tree<C>, p: u64, q: u64, view: LenView) -> bool
    requires usable { IsTrue tree.now.usable }
    requires floor { IsFromFloor tree.now.floor view }
    requires order { p ≤ q }
    requires within { q ≤ len (seen_in view) (elements C.units C.by tree.now.leaves) }
    ensures { let all = elements C.units C.by tree.now.leaves in
        IsTrue result → passes_beside_range (seen_in view) is_standing is_always_seen p q all ≡ true }
{
    // What holds of the leaves at any time is read off its contract.
    let _first = tree.first_leaf();
    if p == q {
        return true;
    }
    let front = front_of(tree, p, view, LenView::All);
    if !passes_before(tree, front.shown) {
        return false;
    }
    passes_within(tree, front, p, q, view)
}

// Whether no run of pending elements stands behind so many elements of the leaf, and those that stand on both sides are always
// seen.
fn passes_beside_leaf<C: Content>(tree: &Tree<C>, id: NodeId, offset: u64) -> bool
    requires usable { IsTrue tree.now.usable }
    requires live { IsLeafIn tree.now.leaves id }
    requires held { IsInLeaf C.units tree.now.leaves (Some id) offset }
    ensures { IsTrue result → IsFreePlace (held_place C.units C.by tree.now.leaves (Some id) offset) (elements C.units C.by tree.now.leaves) }
{
    // What holds of the leaves at any time is read off its contract.
    let _first = tree.first_leaf();
    if offset < tree.leaf_len(id) {
        return is_always_seen(tree.leaf_element(id));
    }
    if !passes_from(tree, tree.next_leaf(id)) {
        return false;
    }
    passes_up_to(tree, id, offset)
}

// Whether the last that stands up to so many elements of the leaf is always seen.
fn passes_up_to<C: Content>(tree: &Tree<C>, id: NodeId, offset: u64) -> bool
    requires usable { IsTrue tree.now.usable }
    requires live { IsLeafIn tree.now.leaves id }
    requires held { IsInLeaf C.units tree.now.leaves (Some id) offset }
    ensures { let n = held_place C.units C.by tree.now.leaves (Some id) offset in
        IsTrue result → first_passes is_standing is_always_seen (reverse (take n (elements C.units C.by tree.now.leaves))) ≡ true }
{
    // What holds of the leaves at any time is read off its contract.
    let _first = tree.first_leaf();
    if is_always_seen(tree.leaf_element(id)) {
        return true;
    }
    passes_before(tree, tree.position_of(id, LenView::All) + offset)
}

// Whether the leaves from this one on begin with no run of pending elements, and the first that stands is always seen.
fn passes_from<C: Content>(tree: &Tree<C>, from: Option<NodeId>) -> bool
    requires usable { IsTrue tree.now.usable }
    requires live { IsPlaceIn tree.now.leaves from }
    ensures run { IsTrue result → shown_in_run is_pending (seen_in All) (elements C.units C.by (from_place tree.now.leaves from)) ≡ 0 }
    ensures first { IsTrue result → first_passes is_standing is_always_seen (elements C.units C.by (from_place tree.now.leaves from)) ≡ true }
{
    // What holds of the leaves at any time is read off its contract.
    let _first = tree.first_leaf();
    let Some(id) = from else {
        return true;
    };
    if is_pending(tree.leaf_element(id)) {
        return false;
    }
    passes_behind(tree, from)
}

// Whether the first that stands in the leaves from this one on is always seen.
fn passes_behind<C: Content>(tree: &Tree<C>, from: Option<NodeId>) -> bool
    requires usable { IsTrue tree.now.usable }
    requires live { IsPlaceIn tree.now.leaves from }
    ensures { IsTrue result → first_passes is_standing is_always_seen (elements C.units C.by (from_place tree.now.leaves from)) ≡ true }
{
    // What holds of the leaves at any time is read off its contract.
    let _first = tree.first_leaf();
    let mut next = from;
    for _i in 0..MOST_PASSED {
        let Some(id) = next else {
            return true;
        };
        let stamps = tree.leaf_element(id);
        if stands(stamps) {
            return is_always_seen(stamps);
        }
        next = tree.next_leaf(id);
    }
    false
}

// Whether the last that stands of the first `count` elements is always seen.
fn passes_before<C: Content>(tree: &Tree<C>, count: u64) -> bool
    requires usable { IsTrue tree.now.usable }
    requires within { count ≤ length (elements C.units C.by tree.now.leaves) }
    ensures { IsTrue result → first_passes is_standing is_always_seen (reverse (take count (elements C.units C.by tree.now.leaves))) ≡ true }
{
    // What holds of the leaves at any time is read off its contract.
    let _first = tree.first_leaf();
    let mut left = count;
    for _i in 0..MOST_PASSED {
        let Some(found) = tree.find(left, LenView::All) else {
            unreachable!()
        };
        let Some(id) = found.leaf else {
            return true;
        };
        let stamps = tree.leaf_element(id);
        if stands(stamps) {
            return is_always_seen(stamps);
        }
        left -= found.offset;
    }
    false
}

// Whether each element that stands from this leaf on up to the last one of the range is in the range or always seen, and the
// first one behind them that stands is always seen.
fn passes_within<C: Content>(tree: &Tree<C>, front: Front, p: u64, q: u64, view: LenView) -> bool
    requires usable { IsTrue tree.now.usable }
    requires front { IsFront C.units C.by tree.now.leaves view All p front }
    requires order { p < q }
    ensures { let rest = elements C.units C.by (from_place tree.now.leaves (Some front.leaf)) in
        IsTrue result → pass_from_front (seen_in view) p q front.seen rest ≡ true }
{
    // What holds of the leaves at any time is read off its contract.
    let _first = tree.first_leaf();
    let mut place = front.seen;
    let mut next = Some(front.leaf);
    while let Some(id) = next {
        if q <= place {
            return passes_behind(tree, next);
        }
        let len = tree.leaf_len(id);
        let seen = count_if(tree.leaf_is_seen(id, view), len);
        let part = part_within(place, seen, p, q);
        if !may_stand(tree.leaf_element(id), part.count == len) {
            return false;
        }
        place += seen;
        next = tree.next_leaf(id);
    }
    true
}

// Whether it doesn't stand, or is in the range, or is always seen.
fn may_stand(e: &Element, is_inside: bool) -> bool
    ensures { result ≡ (not (stamps_stand e.now) || (is_inside || stamps_always_seen e.now)) }
{
    !stands(e) || (is_inside || is_always_seen(e))
}

// Whether no sequenced removal took it.
fn stands(e: &Element) -> bool
    ensures { result ≡ stamps_stand e.now }
{
    !has_sequenced(e.dels.as_slice())
}

// Whether each stage sees it, and the agreed document too.
fn is_always_seen(e: &Element) -> bool
    ensures { result ≡ stamps_always_seen e.now }
{
    if is_pending(e) {
        return false;
    }
    e.dels.is_empty()
}
