//! Leaves in blocks: elements by their leaf and how many of its elements stand before, and their places in the
//! whole list.

ghost use Rattle.std.specs.Prelude.{◌≡◌, IfSome, IsTrue, nat_lt, option_map};
ghost use Rattle.ft_block.specs.Leaves.{IsFromFloor};
ghost use Rattle.ft_tree_leaves.specs.Elements.{seen_in};
ghost use Rattle.ft_tree_leaves.specs.LeafLists.{elements};
ghost use Rattle.ft_tree_leaves.specs.Places.{place_at, seen_before};
ghost use Rattle.ft_tree_blocks.specs.LeafPlaces.{IsOnLeaf, place_on};

use ft_arena::NodeId;
use ft_block::{Blocks, LenView};
use ft_refs::Place;
use ft_tree_blocks::find_leaf;
use ft_tree_leaves::{Content, TreeLeaf};
use std::marker::Brand;
use std::sync::ledger::Blank;

/// The element that the view sees with `p` seen ones before it: None exactly where it sees no more than `p`.
///
/// The reference number of a perspective isn't below the floor. It reads a few nodes, and at a stage other than
/// `u64::MAX` a few more for each leaf with a pending stamp as far as the element, and for the next one.
pub fn seen_offset<C: Content>(blocks: &Blocks<TreeLeaf<C>>, p: u64, view: LenView) -> Option<Place>
    requires usable { IsTrue blocks.now.usable }
    requires floor { IsFromFloor blocks.now.floor view }
    ensures on_leaf { IfSome result (IsOnLeaf C.units blocks.now.leaves) }
    ensures place { let leaves = blocks.now.leaves in
        option_map (place_on C.units C.by leaves) result ≡ place_at (seen_in view) p (elements C.units C.by leaves) }
{
    // What holds of the leaves at any time is read off its contract.
    let _first = blocks.first();
    let found = find_leaf::<C, Brand>(blocks, p.checked_add(1)?, view, Blank::new(1))?;
    let leaf = found.leaf?;
    Some(Place {
        owner: leaf,
        offset: found.offset - 1,
    })
}

/// The place of the element: how many stand before it. It goes up from the leaf.
pub fn elements_before<C: Content>(blocks: &Blocks<TreeLeaf<C>>, at: &Place) -> u64
    requires usable { IsTrue blocks.now.usable }
    requires on_leaf { IsOnLeaf C.units blocks.now.leaves at.now }
    ensures { result ≡ place_on C.units C.by blocks.now.leaves at.now }
{
    // What holds of the leaves at any time is read off its contract.
    let _first = blocks.first();
    blocks.position_of(at.owner, LenView::All) + at.offset
}

/// Whether the first element stands before the second. Where they are of two leaves, it goes up from both to the nearest
/// block above both, and reads no length.
pub fn is_before<C: Content>(blocks: &Blocks<TreeLeaf<C>>, first: &Place, second: &Place) -> bool
    requires usable { IsTrue blocks.now.usable }
    requires first { IsOnLeaf C.units blocks.now.leaves first.now }
    requires second { IsOnLeaf C.units blocks.now.leaves second.now }
    ensures { let leaves = blocks.now.leaves in
        result ≡ nat_lt (place_on C.units C.by leaves first.now) (place_on C.units C.by leaves second.now) }
{
    if first.owner == second.owner {
        return first.offset < second.offset;
    }
    blocks.is_before(first.owner, second.owner)
}

/// How many elements that the view sees stand before the element.
///
/// The reference number of a perspective isn't below the floor. It goes up from the leaf; at a stage other than
/// `u64::MAX` it also looks for each leaf left of it that has a pending stamp.
pub fn seen_before_on<C: Content>(blocks: &Blocks<TreeLeaf<C>>, at: &Place, view: LenView) -> u64
    requires usable { IsTrue blocks.now.usable }
    requires floor { IsFromFloor blocks.now.floor view }
    requires on_leaf { IsOnLeaf C.units blocks.now.leaves at.now }
    ensures { let leaves = blocks.now.leaves in
        result ≡ seen_before (seen_in view) (elements C.units C.by leaves) (place_on C.units C.by leaves at.now) }
{
    // What holds of the leaves at any time is read off its contract.
    let _first = blocks.first();
    let before = blocks.position_of(at.owner, view);
    if blocks.leaf(at.owner).is_seen_in(view) {
        before + at.offset
    } else {
        before
    }
}
