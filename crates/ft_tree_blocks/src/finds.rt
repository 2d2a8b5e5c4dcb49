//! Leaves in blocks: where a place is, and the next leaf that a view sees, by the sums of blocks.

ghost use Rattle.std.specs.Prelude.{◌≡◌, ◌<◌, IsTrue, option_map, true};
ghost use Rattle.std.specs.Option.{ForSome};
ghost use Rattle.ft_block.specs.Leaves.{IsFromFloor, IsLeafIn, IsPlaceIn, left_of, place_by};
ghost use Rattle.ft_tree_leaves.specs.declared.leaves.Standing.TheVariants.{SeenIn};
ghost use Rattle.ft_tree_leaves.specs.LeafLists.{elements, leaf_length};
ghost use Rattle.ft_tree_leaves.specs.Settling.{stands};
ghost use Rattle.ft_tree_blocks.specs.LastStanding.{last_from};
ghost use Rattle.ft_tree_blocks.specs.LeafPlaces.{leaf_end, stands_at};
ghost use Rattle.ft_tree_blocks.specs.Skips.{Skips};

use crate::reads;
use ft_arena::NodeId;
use ft_base::Steps;
use ft_block::{Blocks, Found, LenView};
use ft_tree_leaves::{Content, TreeLeaf};
use std::marker::Brand;
use std::sync::ledger::{Blank, Ledger};

/// The leaf that holds the `p`-th element that the view sees, and how many of its elements stand up to that
/// one; the head of the list for `p` = 0. None exactly where `p` is above the length seen.
///
/// The reference number of a perspective isn't below the floor. It reads a few nodes, and at a stage other than
/// `u64::MAX` a few more for each leaf with a pending stamp as far as the place, and for the next one.
pub fn find_leaf<C: Content, G: Ledger>(
    blocks: &Blocks<TreeLeaf<C>>,
    p: u64,
    view: LenView,
    blank: Blank,
) -> Option<Found>
    requires name { blank.name ≡ G.name }
    requires parts { blank.parts ≡ G.parts }
    requires one { 0 < blank.parts }
    requires usable { IsTrue blocks.now.usable }
    requires floor { IsFromFloor blocks.now.floor view }
    ensures { result ≡ place_by (leaf_length C.units view) blocks.now.leaves p }
{
    let mut steps = Steps::<G>::new(blank);
    match view {
        LenView::At(at) => blocks.find(p, at, &mut steps).ok(),
        LenView::Stage(stage) => {
            if stage == u64::MAX {
                blocks.find_local(p, &mut steps).ok()
            } else {
                blocks.find_at_stage(p, stage).ok()
            }
        }
        LenView::All => blocks.find_any(p, &mut steps).ok(),
    }
}

/// The first leaf from that of this node on that the view sees: None where it sees none of them. It goes up from the
/// leaf, and down from the root.
pub(crate) fn next_seen<C: Content>(
    blocks: &Blocks<TreeLeaf<C>>,
    id: NodeId,
    view: LenView,
) -> Option<NodeId>
    requires usable { IsTrue blocks.now.usable }
    requires floor { IsFromFloor blocks.now.floor view }
    requires live { IsLeafIn blocks.now.leaves id }
    ensures live { IsPlaceIn blocks.now.leaves result }
    ensures stands { ForSome result (λ to. stands_at (SeenIn view) blocks.now.leaves to ≡ true) }
    ensures skips { Skips C.units C.by (stands (SeenIn view)) blocks.now.leaves (Some id) result }
{
    // What holds of the leaves at any time is read off its contract.
    let _first = reads::first(blocks);
    let before = blocks.position_of(id, view);
    let found = find_leaf::<C, Brand>(blocks, before + 1, view, Blank::new(1))?;
    found.leaf
}

/// The last leaf before that of this node that the view sees: None where it sees none of them. It goes up from the
/// leaf, and down from the root.
pub(crate) fn last_seen<C: Content>(
    blocks: &Blocks<TreeLeaf<C>>,
    id: NodeId,
    view: LenView,
) -> Option<NodeId>
    requires usable { IsTrue blocks.now.usable }
    requires floor { IsFromFloor blocks.now.floor view }
    requires live { IsLeafIn blocks.now.leaves id }
    ensures live { IsPlaceIn blocks.now.leaves result }
    ensures stands { ForSome result (λ to. stands_at (SeenIn view) blocks.now.leaves to ≡ true) }
    ensures last { let leaves = blocks.now.leaves in
        option_map (leaf_end C.units C.by leaves) result ≡ last_from (stands (SeenIn view)) 0 (elements C.units C.by (left_of leaves id)) }
{
    // What holds of the leaves at any time is read off its contract.
    let _first = reads::first(blocks);
    let before = blocks.position_of(id, view);
    let found = find_leaf::<C, Brand>(blocks, before, view, Blank::new(1))?;
    found.leaf
}
