//! Where an insertion is shown.

ghost use Rattle.std.specs.Prelude.{◌≡◌, ◌+◌, ◌≤◌, IsTrue, Some, cond, drop, not, take};
ghost use Rattle.ft_base.specs.Scan.{len};
ghost use Rattle.ft_base.specs.Visibility.{is_acked};
ghost use Rattle.ft_block.specs.Leaves.{IsFromFloor, IsLeafIn, IsPlaceIn};
ghost use Rattle.ft_tree_leaves.specs.Elements.{is_pending, seen_in};
ghost use Rattle.ft_tree_leaves.specs.LeafLists.{elements};
ghost use Rattle.ft_tree_blocks.specs.Walks.{from_place};
ghost use Rattle.ft_tree_steps.specs.LeafSteps.{IsInLeaf, held_place};
ghost use Rattle.ft_changes.specs.ShownRuns.{place_of_insertion, shown_in_run};

use crate::fronts::count_if;
use ft_arena::NodeId;
use ft_base::{Element, Stamp};
use ft_block::LenView;
use ft_tree::{Content, Tree};

/// How many elements that `shown` sees stand before those that go in directly after the `p`-th element that `view` sees, or
/// at the head for 0, and past the run of pending elements there.
///
/// It goes down to that place, and from there over the leaves of the run.
pub fn place_of_insertion<C: Content>(tree: &Tree<C>, p: u64, view: LenView, shown: LenView) -> u64
    requires usable { IsTrue tree.now.usable }
    requires floor { IsFromFloor tree.now.floor view }
    requires shown_floor { IsFromFloor tree.now.floor shown }
    requires within { p ≤ len (seen_in view) (elements C.units C.by tree.now.leaves) }
    ensures { result ≡ place_of_insertion (seen_in view) is_pending (seen_in shown) p (elements C.units C.by tree.now.leaves) }
{
    let first = tree.first_leaf();
    let Some(found) = tree.find(p, view) else {
        unreachable!()
    };
    match found.leaf {
        Some(id) => shown_behind(tree, id, found.offset, shown),
        None => shown_pending(tree, first, shown),
    }
}

// How many shown elements stand up to the place in the leaf, and in the run of pending elements behind it.
fn shown_behind<C: Content>(tree: &Tree<C>, id: NodeId, offset: u64, shown: LenView) -> u64
    requires usable { IsTrue tree.now.usable }
    requires floor { IsFromFloor tree.now.floor shown }
    requires live { IsLeafIn tree.now.leaves id }
    requires held { IsInLeaf C.units tree.now.leaves (Some id) offset }
    ensures { let n = held_place C.units C.by tree.now.leaves (Some id) offset in
        let all = elements C.units C.by tree.now.leaves in
        result ≡ len (seen_in shown) (take n all) + shown_in_run is_pending (seen_in shown) (drop n all) }
{
    // What holds of the leaves at any time is read off its contract.
    let _first = tree.first_leaf();
    let left = tree.position_of(id, shown);
    let len = tree.leaf_len(id);
    let is_shown = tree.leaf_is_seen(id, shown);
    if offset < len && !is_pending(tree.leaf_element(id)) {
        return left + count_if(is_shown, offset);
    }
    left + count_if(is_shown, len) + shown_pending(tree, tree.next_leaf(id), shown)
}

// How many shown elements are in the run of pending ones that the leaves from this one on begin with.
fn shown_pending<C: Content>(tree: &Tree<C>, from: Option<NodeId>, shown: LenView) -> u64
    requires usable { IsTrue tree.now.usable }
    requires live { IsPlaceIn tree.now.leaves from }
    ensures { result ≡ shown_in_run is_pending (seen_in shown) (elements C.units C.by (from_place tree.now.leaves from)) }
{
    // What holds of the leaves at any time is read off its contract.
    let _first = tree.first_leaf();
    let mut count: u64 = 0;
    let mut next = from;
    while let Some(id) = next {
        let len = tree.leaf_len(id);
        let is_shown = tree.leaf_is_seen(id, shown);
        if !is_pending(tree.leaf_element(id)) {
            return count;
        }
        count += count_if(is_shown, len);
        next = tree.next_leaf(id);
    }
    count
}

/// Whether its insertion is pending.
pub(crate) fn is_pending(e: &Element) -> bool
    ensures { result ≡ not (is_acked e.now.ins) }
{
    matches!(e.ins, Stamp::Local { .. })
}
