//! Leaves in blocks: how one is moved.

ghost use Rattle.std.specs.Prelude.{◌≡◌, IsTrue, OnOk, true};
ghost use Rattle.ft_block.specs.Leaves.{IsLeafIn, IsPlaceIn, move_leaf, value_at, without_leaf};
ghost use Rattle.ft_tree_leaves.specs.Edits.{moved_by, with_place};
ghost use Rattle.ft_tree_leaves.specs.References.{ChangesReferences};

use ft_arena::NodeId;
use ft_base::OutOfMemory;
use ft_tree_blocks::LeafBlocks;
use ft_tree_leaves::Content;

/// Moves the leaf of a node directly after another, or to the head. Its references go with it.
pub fn move_at<C: Content>(
    blocks: &mut LeafBlocks<C>,
    id: NodeId,
    at: Option<NodeId>,
) -> Result<(), OutOfMemory>
    requires usable { IsTrue blocks.old.usable }
    requires live { IsLeafIn blocks.old.leaves id }
    requires place { IsPlaceIn (without_leaf blocks.old.leaves id) at }
    ensures leaves { OnOk result (blocks.new.leaves ≡ move_leaf blocks.old.leaves id at (value_at blocks.old.leaves id)) }
    ensures refs { OnOk result (ChangesReferences (with_place (moved_by C.units C.by blocks.old.leaves id at)) blocks.old.refs blocks.new.refs) }
    ensures usable { OnOk result (blocks.new.usable ≡ true) }
    ensures floor { blocks.new.floor ≡ blocks.old.floor }
{
    // What holds of the leaves at any time is read off its contract.
    let _first = blocks.first();
    blocks.move_after(id, at)
}
