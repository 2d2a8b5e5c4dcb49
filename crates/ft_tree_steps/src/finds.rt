//! Leaves in blocks: where an element with a sequenced removal is, for calls that are given no counter of steps.

ghost use Rattle.std.specs.Prelude.{◌≡◌, ◌<◌, IsTrue};
ghost use Rattle.ft_block.specs.Leaves.{place_by};
ghost use Rattle.ft_tree_leaves.specs.LeafLists.{leaf_removed};

use ft_base::Steps;
use ft_block::{Blocks, Found};
use ft_tree_leaves::{Content, TreeLeaf};
use std::sync::ledger::{Blank, Ledger};

/// The leaf that holds the `p`-th of the elements whose first removal is sequenced, and how many of these stand in it
/// up to that one; the head of the list for `p` = 0. None exactly where `p` is above their number.
///
/// It reads a few nodes on each level.
pub fn find_removed_leaf<C: Content, G: Ledger>(
    blocks: &Blocks<TreeLeaf<C>>,
    p: u64,
    blank: Blank,
) -> Option<Found>
    requires name { blank.name ≡ G.name }
    requires parts { blank.parts ≡ G.parts }
    requires one { 0 < blank.parts }
    requires usable { IsTrue blocks.now.usable }
    ensures { result ≡ place_by (leaf_removed C.units) blocks.now.leaves p }
{
    let mut steps = Steps::<G>::new(blank);
    blocks.find_removed(p, &mut steps).ok()
}
