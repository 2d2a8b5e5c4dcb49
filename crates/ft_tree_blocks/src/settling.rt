//! Leaves in blocks: where a reference on an element goes, from leaf to leaf.

ghost use Rattle.std.specs.Prelude.{◌≡◌, IfSome, IsTrue, length, option_map, true};
ghost use Rattle.std.specs.Option.{ForSome};
ghost use Rattle.ft_block.specs.Leaves.{IsFromFloor, IsLeafIn, IsPlaceIn};
ghost use Rattle.ft_tree_leaves.specs.declared.leaves.Standing.TheVariants.{SeenIn};
ghost use Rattle.ft_tree_leaves.specs.Edits.{up_to_place};
ghost use Rattle.ft_tree_leaves.specs.LeafLists.{elements};
ghost use Rattle.ft_tree_leaves.specs.Places.{settled_place};
ghost use Rattle.ft_tree_leaves.specs.Settling.{first_from, stands};
ghost use Rattle.ft_tree_blocks.specs.LeafPlaces.{IsOnLeaf, leaf_end, leaf_start, place_on, stands_at};
ghost use Rattle.ft_tree_blocks.specs.LastStanding.{last_from};
ghost use Rattle.ft_tree_blocks.specs.Skips.{Skips};
ghost use Rattle.ft_tree_blocks.specs.Walks.{before_place, from_place};

use crate::finds::{last_seen, next_seen};
use crate::reads;
use ft_arena::NodeId;
use ft_block::{Blocks, LenView};
use ft_refs::Place;
use ft_tree_leaves::leaves::Standing;
use ft_tree_leaves::{Content, TreeLeaf};

/// So many leaves a search looks at one by one, before it goes by the sums that blocks keep of a view.
const NEAR: u64 = 8;

// Whether the view is no perspective with a reference number below the floor: then blocks keep its sums.
fn is_from_floor<C: Content>(blocks: &Blocks<TreeLeaf<C>>, view: LenView) -> bool
    ensures { result ≡ true → IsFromFloor blocks.now.floor view }
{
    match view {
        LenView::At(at) => blocks.floor() <= at.r,
        LenView::Stage(_) => true,
        LenView::All => true,
    }
}

// The view by whose sums a search goes on that may look at so many more leaves one by one.
fn sums_for<C: Content>(blocks: &Blocks<TreeLeaf<C>>, test: Standing, near: u64) -> Option<LenView>
    ensures view { IfSome result (λ view. test ≡ SeenIn view) }
    ensures floor { IfSome result (IsFromFloor blocks.now.floor) }
{
    if near > 0 {
        return None;
    }
    let Standing::SeenIn(view) = test else {
        return None;
    };
    if is_from_floor(blocks, view) {
        Some(view)
    } else {
        None
    }
}

/// The first leaf from that of this node on on whose elements a reference may stand: None where there is none,
/// or no node is given.
///
/// It looks at the next few leaves one by one. Where a reference may stand on what a view sees, and blocks keep its sums, it goes up from
/// there and down from the root then, else it reads all leaves up to that one.
pub fn next_standing<C: Content>(
    blocks: &Blocks<TreeLeaf<C>>,
    from: Option<NodeId>,
    test: Standing,
) -> Option<NodeId>
    requires usable { IsTrue blocks.now.usable }
    requires place { IsPlaceIn blocks.now.leaves from }
    ensures live { IsPlaceIn blocks.now.leaves result }
    ensures stands { ForSome result (λ id. stands_at test blocks.now.leaves id ≡ true) }
    ensures first { let leaves = blocks.now.leaves in
        option_map (leaf_start C.units C.by leaves) result
        ≡ first_from (stands test) (length (elements C.units C.by (before_place leaves from))) (elements C.units C.by (from_place leaves from)) }
    ensures skips { Skips C.units C.by (stands test) blocks.now.leaves from result }
{
    // What holds of the leaves at any time is read off its contract.
    let _first = reads::first(blocks);
    let mut at = from;
    let mut near = NEAR;
    while let Some(id) = at {
        let leaf = reads::leaf(blocks, id);
        // That it has an element is read off its contract.
        let _len = leaf.content.len();
        if leaf.stands(test) {
            return at;
        }
        if let Some(view) = sums_for(blocks, test, near) {
            return next_seen(blocks, id, view);
        }
        near = near.saturating_sub(1);
        at = reads::next(blocks, id);
    }
    None
}

/// The last leaf up to that of this node on whose elements a reference may stand: None where there is none, or
/// no node is given. It goes back as `next_standing` goes on.
pub fn last_standing<C: Content>(
    blocks: &Blocks<TreeLeaf<C>>,
    from: Option<NodeId>,
    test: Standing,
) -> Option<NodeId>
    requires usable { IsTrue blocks.now.usable }
    requires place { IsPlaceIn blocks.now.leaves from }
    ensures live { IsPlaceIn blocks.now.leaves result }
    ensures stands { ForSome result (λ id. stands_at test blocks.now.leaves id ≡ true) }
    ensures last { let leaves = blocks.now.leaves in
        option_map (leaf_end C.units C.by leaves) result ≡ last_from (stands test) 0 (elements C.units C.by (up_to_place leaves from)) }
{
    // What holds of the leaves at any time is read off its contract.
    let _first = reads::first(blocks);
    let mut at = from;
    let mut near = NEAR;
    while let Some(id) = at {
        let leaf = reads::leaf(blocks, id);
        // That it has an element is read off its contract.
        let _len = leaf.content.len();
        if leaf.stands(test) {
            return at;
        }
        if let Some(view) = sums_for(blocks, test, near) {
            return last_seen(blocks, id, view);
        }
        near = near.saturating_sub(1);
        at = reads::prev(blocks, id);
    }
    None
}

// The last element of a leaf.
fn last_of<C: Content>(blocks: &Blocks<TreeLeaf<C>>, leaf: NodeId) -> Place
    requires usable { IsTrue blocks.now.usable }
    requires live { IsLeafIn blocks.now.leaves leaf }
    ensures owner { result.owner ≡ leaf }
    ensures on_leaf { IsOnLeaf C.units blocks.now.leaves result }
    ensures place { place_on C.units C.by blocks.now.leaves result ≡ leaf_end C.units C.by blocks.now.leaves leaf }
{
    // What holds of the leaves at any time is read off its contract.
    let _first = reads::first(blocks);
    Place {
        owner: leaf,
        offset: reads::leaf(blocks, leaf).content.len() - 1,
    }
}

/// Where a reference on an element goes: it stays if it may stand there, else it goes to the next element on
/// which it may, else to the last before, else nowhere.
///
/// It looks for them as `next_standing` and `last_standing` do.
pub fn settled_on<C: Content>(
    blocks: &Blocks<TreeLeaf<C>>,
    at: &Place,
    test: Standing,
) -> Option<Place>
    requires usable { IsTrue blocks.now.usable }
    requires on_leaf { IsOnLeaf C.units blocks.now.leaves at.now }
    ensures on_leaf { IfSome result (IsOnLeaf C.units blocks.now.leaves) }
    ensures stands { ForSome result (λ p. stands_at test blocks.now.leaves p.owner ≡ true) }
    ensures place { let leaves = blocks.now.leaves in
        option_map (place_on C.units C.by leaves) result
        ≡ settled_place (stands test) (elements C.units C.by leaves) (place_on C.units C.by leaves at.now) }
{
    // What holds of the leaves at any time is read off its contract.
    let _first = reads::first(blocks);
    if reads::leaf(blocks, at.owner).stands(test) {
        return Some(*at);
    }
    match next_standing(blocks, reads::next(blocks, at.owner), test) {
        Some(leaf) => Some(Place {
            owner: leaf,
            offset: 0,
        }),
        None => {
            let leaf = last_standing(blocks, reads::prev(blocks, at.owner), test)?;
            Some(last_of(blocks, leaf))
        }
    }
}
