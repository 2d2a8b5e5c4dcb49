//! Where a walk over the leaves of a range begins, and what of a leaf is in the range.

ghost use Rattle.std.specs.Prelude.{◌≡◌, ◌+◌, ◌<◌, ◌≤◌, ◌^◌, IsTrue, Some, cond, option_map};
ghost use Rattle.ft_base.specs.Scan.{len};
ghost use Rattle.ft_block.specs.Leaves.{IsFromFloor, IsLeafIn, value_at};
ghost use Rattle.ft_tree_leaves.specs.Elements.{seen_in};
ghost use Rattle.ft_tree_leaves.specs.LeafLists.{elements, leaf_length};
ghost use Rattle.ft_tree_changes.specs.Fronts.{IsFront, both_length};

use ft_arena::NodeId;
use ft_block::LenView;
use ft_tree::{Content, Tree};

/// The leaf in which a range begins, and how many elements before the leaf are seen and shown.
#[derive(Clone, Copy)]
pub(crate) struct Front {
    pub(crate) leaf: NodeId,
    pub(crate) seen: u64,
    pub(crate) shown: u64,
}

/// The leaf of the `p`-th element that `view` sees, counted from 0.
pub(crate) fn front_of<C: Content>(tree: &Tree<C>, p: u64, view: LenView, shown: LenView) -> Front
    requires usable { IsTrue tree.now.usable }
    requires floor { IsFromFloor tree.now.floor view }
    requires shown_floor { IsFromFloor tree.now.floor shown }
    requires within { p < len (seen_in view) (elements C.units C.by tree.now.leaves) }
    ensures { IsFront C.units C.by tree.now.leaves view shown p result }
{
    // What holds of the leaves at any time is read off its contract.
    let _first = tree.first_leaf();
    let Some(found) = tree.find(p + 1, view) else {
        unreachable!()
    };
    let Some(leaf) = found.leaf else {
        unreachable!()
    };
    let seen = p + 1 - found.offset;
    let shown = tree.position_of(leaf, shown);
    Front { leaf, seen, shown }
}

/// How many elements of a leaf are seen, how many are shown, and how many are both.
#[derive(Clone, Copy)]
pub(crate) struct LeafCounts {
    pub(crate) seen: u64,
    pub(crate) shown: u64,
    pub(crate) both: u64,
}

/// Those of the leaf.
pub(crate) fn counts_of<C: Content>(
    tree: &Tree<C>,
    id: NodeId,
    view: LenView,
    shown: LenView,
) -> LeafCounts
    requires usable { IsTrue tree.now.usable }
    requires live { IsLeafIn tree.now.leaves id }
    ensures seen { option_map (leaf_length C.units view) (value_at tree.now.leaves id) ≡ Some result.seen }
    ensures shown { option_map (leaf_length C.units shown) (value_at tree.now.leaves id) ≡ Some result.shown }
    ensures both { option_map (both_length C.units view shown) (value_at tree.now.leaves id) ≡ Some result.both }
{
    let len = tree.leaf_len(id);
    let is_seen = tree.leaf_is_seen(id, view);
    let is_shown = tree.leaf_is_seen(id, shown);
    let seen = count_if(is_seen, len);
    let shown = count_if(is_shown, len);
    let both = count_if(is_seen, shown);
    LeafCounts { seen, shown, both }
}

/// The elements of a leaf that are within a range: `count` behind the first `before`.
#[derive(Clone, Copy)]
pub(crate) struct Part {
    pub(crate) before: u64,
    pub(crate) count: u64,
}

/// Which of `len` elements from `place` on are from `p` up to before `q`.
pub(crate) fn part_within(place: u64, len: u64, p: u64, q: u64) -> Part
    requires order { p < q }
    requires near { place < q }
    requires fits { place + len < 2 ^ 64 }
    ensures inside { result.before + result.count ≤ len }
    ensures before { 0 < result.before → place + result.before ≤ p }
    ensures count { 0 < result.count → (p ≤ place + result.before) × (place + result.before + result.count ≤ q) }
    ensures behind { result.before + result.count < len → q ≤ place + result.before + result.count }
{
    let end = place + len;
    let from = p.max(place).min(end);
    let to = q.min(end);
    Part {
        before: from - place,
        count: to - from,
    }
}

/// The count if the test passes, else 0.
pub(crate) fn count_if(test: bool, count: u64) -> u64
    ensures { result ≡ cond test count 0 }
{
    if test { count } else { 0 }
}
