//! Leaves in blocks: the place behind all, for calls that are given no counter of steps.

ghost use Rattle.std.specs.Prelude.{◌≡◌, ◌<◌, IsTrue, length};
ghost use Rattle.ft_tree_steps.specs.LeafSteps.{IsInLeaf, held_place};
ghost use Rattle.ft_tree_leaves.specs.LeafLists.{elements};

use ft_base::Steps;
use ft_block::{Blocks, Found, LenView};
use ft_tree_leaves::{Content, TreeLeaf};
use std::sync::ledger::{Blank, Ledger};

/// The place behind all elements.
pub(crate) fn find_end<C: Content, G: Ledger>(blocks: &Blocks<TreeLeaf<C>>, blank: Blank) -> Found
    requires name { blank.name ≡ G.name }
    requires parts { blank.parts ≡ G.parts }
    requires one { 0 < blank.parts }
    requires usable { IsTrue blocks.now.usable }
    ensures held { IsInLeaf C.units blocks.now.leaves result.leaf result.offset }
    ensures place { let all = elements C.units C.by blocks.now.leaves in
        held_place C.units C.by blocks.now.leaves result.leaf result.offset ≡ length all }
{
    let mut steps = Steps::<G>::new(blank);
    // What holds of the leaves at any time is read off its contract.
    let _first = blocks.first();
    match blocks.find_any(blocks.length(LenView::All), &mut steps) {
        Ok(found) => found,
        Err(_) => unreachable!(),
    }
}
