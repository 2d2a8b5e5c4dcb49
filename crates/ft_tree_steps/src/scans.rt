//! Leaves in blocks: the number of an element among those that a view sees, as it is settled there.

ghost use Rattle.std.specs.Prelude.{◌≡◌, IsTrue};
ghost use Rattle.ft_block.specs.Leaves.{IsFromFloor};
ghost use Rattle.ft_tree_leaves.specs.Elements.{seen_in};
ghost use Rattle.ft_tree_leaves.specs.LeafLists.{elements};
ghost use Rattle.ft_tree_leaves.specs.Places.{settled_number};
ghost use Rattle.ft_tree_blocks.specs.LeafPlaces.{IsOnLeaf, place_on};

use crate::offsets::seen_before_on;
use crate::places::seen_count;
use ft_block::{Blocks, LenView};
use ft_refs::Place;
use ft_tree_leaves::{Content, TreeLeaf};

/// The number, among the elements that the view sees, of this one as it is settled there: None exactly where
/// the view sees none.
///
/// The reference number of a perspective isn't below the floor. It goes up from the leaf, as `seen_before_on` does: the next
/// element that the view sees has as many seen ones before it as this one, and where there is none, it is the last.
pub fn settled_number<C: Content>(
    blocks: &Blocks<TreeLeaf<C>>,
    at: &Place,
    view: LenView,
) -> Option<u64>
    requires usable { IsTrue blocks.now.usable }
    requires floor { IsFromFloor blocks.now.floor view }
    requires on_leaf { IsOnLeaf C.units blocks.now.leaves at.now }
    ensures { let leaves = blocks.now.leaves in
        result ≡ settled_number (seen_in view) (elements C.units C.by leaves) (place_on C.units C.by leaves at.now) }
{
    // What holds of the leaves at any time is read off its contract.
    let _first = blocks.first();
    let last = seen_count(blocks, view).checked_sub(1)?;
    Some(seen_before_on(blocks, at, view).min(last))
}
