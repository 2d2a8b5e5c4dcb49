//! Leaves in blocks: how a stage is taken off one.

ghost use Rattle.std.specs.Prelude.{◌≡◌, IsTrue, OnOk, true};
ghost use Rattle.ft_block.specs.Leaves.{IsLeafIn, change_leaf};
ghost use Rattle.ft_tree_leaves.specs.Edits.{sequenced_leaf, unmarked_leaf};
ghost use Rattle.ft_tree_leaves.specs.References.{KeepsReferences};

use ft_arena::NodeId;
use ft_base::OutOfMemory;
use ft_tree_blocks::LeafBlocks;
use ft_tree_leaves::block_leaf::{sequenced_stamps, unmarked_stamps};
use ft_tree_leaves::{Content, LeafChange};
use std::alloc::Global;

/// Takes the removal mark and the changes of a stage off the leaf of a node.
pub fn unmark_at<C: Content>(
    blocks: &mut LeafBlocks<C>,
    alloc: Global,
    id: NodeId,
    stage: u64,
) -> Result<(), OutOfMemory>
    requires usable { IsTrue blocks.old.usable }
    requires live { IsLeafIn blocks.old.leaves id }
    ensures leaves { OnOk result (blocks.new.leaves ≡ change_leaf (unmarked_leaf stage) blocks.old.leaves id) }
    ensures refs { OnOk result (KeepsReferences blocks.old.refs blocks.new.refs) }
    ensures usable { OnOk result (blocks.new.usable ≡ true) }
    ensures floor { blocks.new.floor ≡ blocks.old.floor }
{
    // What holds of the leaves at any time is read off its contract.
    let _first = blocks.first();
    let e = unmarked_stamps(alloc, &blocks.leaf(id).stamps, stage)?;
    blocks.change(id, &LeafChange::DropPending(stage))?;
    blocks.set_stamps(id, e)?;
    Ok(())
}

/// Takes every pending removal mark and all pending changes off the leaf of a node.
pub fn unmark_all_at<C: Content>(
    blocks: &mut LeafBlocks<C>,
    alloc: Global,
    id: NodeId,
) -> Result<(), OutOfMemory>
    requires usable { IsTrue blocks.old.usable }
    requires live { IsLeafIn blocks.old.leaves id }
    ensures leaves { OnOk result (blocks.new.leaves ≡ change_leaf sequenced_leaf blocks.old.leaves id) }
    ensures refs { OnOk result (KeepsReferences blocks.old.refs blocks.new.refs) }
    ensures usable { OnOk result (blocks.new.usable ≡ true) }
    ensures floor { blocks.new.floor ≡ blocks.old.floor }
{
    // What holds of the leaves at any time is read off its contract.
    let _first = blocks.first();
    let e = sequenced_stamps(alloc, &blocks.leaf(id).stamps)?;
    blocks.change(id, &LeafChange::DropAll)?;
    blocks.set_stamps(id, e)?;
    Ok(())
}
