//! Leaves in blocks: how a stage is acknowledged in them.

ghost use Rattle.std.specs.Prelude.{◌≡◌, All, IsSomeAnd, IsTrue, OnOk, map, true};
ghost use Rattle.ft_block.specs.Leaves.{IsLeafIn, change_leaf, value_at};
ghost use Rattle.ft_tree_leaves.specs.declared.block_leaf.LeafChange.TheVariants.{Ack};
ghost use Rattle.ft_tree_leaves.specs.BlockChanges.{changed_leaf};
ghost use Rattle.ft_tree_leaves.specs.Edits.{is_touched_by};
ghost use Rattle.ft_tree_leaves.specs.Elements.{IsLowestChange};
ghost use Rattle.ft_tree_leaves.specs.LeafChanges.{acked_leaf, acked_pair};
ghost use Rattle.ft_tree_leaves.specs.LeafLists.{elements};
ghost use Rattle.ft_tree_leaves.specs.References.{KeepsReferences};
ghost use Rattle.ft_tree_blocks.specs.Anchors.{references_on};
ghost use Rattle.ft_tree_blocks.specs.Touched.{HaveAllOf, Tracks};
ghost use Rattle.ft_tree_blocks.specs.Unsettled.{IsSoundOn};

use crate::leaf_refs::LeafRefs;
use crate::reads;
use crate::stage_nodes::{StageNodes, TouchedNode};
use crate::touched::take_stage;
use ft_arena::NodeId;
use ft_base::OutOfMemory;
use ft_base::moved::after;
use ft_block::Blocks;
use ft_tree_leaves::block_leaf::acked_stamps;
use ft_tree_leaves::stamps::is_of_stage;
use ft_tree_leaves::{Content, LeafChange, TreeLeaf};
use std::alloc::Global;
use std::collections::VecDeque;

/// Whether the leaf has something of that stage: its insertion, a removal mark or changes.
pub(crate) fn is_touched_by<C: Content>(leaf: &TreeLeaf<C>, stage: u64) -> bool
    ensures { result ≡ is_touched_by stage leaf.now }
{
    is_of_stage(&leaf.stamps.ins, stage) || leaf.is_marked_by(stage)
}

// Acknowledges the changes of a stage in the properties of a leaf, as `Blocks::change` does.
fn ack_changes<C: Content>(
    blocks: &mut Blocks<TreeLeaf<C>>,
    id: NodeId,
    stage: u64,
    seq: u64,
    conn: u32,
) -> Result<(), OutOfMemory>
    requires usable { IsTrue blocks.old.usable }
    requires lowest { IsSomeAnd (value_at blocks.old.leaves id) (λ v. IsLowestChange stage v.overlay) }
    ensures ok { OnOk result (blocks.new.leaves ≡ change_leaf (λ v. changed_leaf C.stamped v (Ack stage seq conn)) blocks.old.leaves id) }
    ensures usable { OnOk result (blocks.new.usable ≡ true) }
    ensures floor { blocks.new.floor ≡ blocks.old.floor }
{
    blocks.change(id, &LeafChange::Ack(stage, seq, conn))
}

// Acknowledges a stage in the leaf of a node under number `seq` of connection `conn`, if it has something
// of that stage. No lower stage has changes there.
fn ack_at<C: Content>(
    blocks: &mut Blocks<TreeLeaf<C>>,
    alloc: Global,
    id: NodeId,
    stage: u64,
    seq: u64,
    conn: u32,
) -> Result<(), OutOfMemory>
    requires usable { IsTrue blocks.old.usable }
    requires live { IsLeafIn blocks.old.leaves id }
    requires lowest { IsSomeAnd (value_at blocks.old.leaves id) (λ v. IsLowestChange stage v.overlay) }
    ensures leaves { OnOk result (blocks.new.leaves ≡ change_leaf (acked_leaf C.stamped stage seq conn) blocks.old.leaves id) }
    ensures usable { OnOk result (blocks.new.usable ≡ true) }
    ensures floor { blocks.new.floor ≡ blocks.old.floor }
{
    // What holds of the leaves at any time is read off its contract.
    let _first = reads::first(blocks);
    let leaf = reads::leaf(blocks, id);
    if !is_touched_by(leaf, stage) {
        return Ok(());
    }
    let e = acked_stamps(alloc, &leaf.stamps, stage, seq, conn)?;
    let changed = ack_changes(blocks, id, stage, seq, conn);
    let stamps = after(changed, e)?;
    blocks.set_stamps(id, stamps)?;
    Ok(())
}

// Acknowledges a stage in the leaves of these nodes under number `seq` of connection `conn`. No other leaf has
// anything of that stage, and no lower stage has changes.
fn ack_nodes<C: Content>(
    blocks: &mut Blocks<TreeLeaf<C>>,
    alloc: Global,
    nodes: &[TouchedNode],
    stage: u64,
    seq: u64,
    conn: u32,
) -> Result<(), OutOfMemory>
    requires usable { IsTrue blocks.old.usable }
    requires lowest { All (λ e. IsLowestChange stage e.overlay) (elements C.units C.by blocks.old.leaves) }
    requires live { All (λ id. IsLeafIn blocks.old.leaves id) nodes.now }
    requires covers { HaveAllOf stage blocks.old.leaves nodes.now }
    ensures leaves { OnOk result (blocks.new.leaves ≡ map (acked_pair C.stamped stage seq conn) blocks.old.leaves) }
    ensures usable { OnOk result (blocks.new.usable ≡ true) }
    ensures floor { blocks.new.floor ≡ blocks.old.floor }
{
    // What holds of the leaves at any time is read off its contract.
    let _first = reads::first(blocks);
    for id in nodes {
        ack_at(blocks, alloc, id.0, stage, seq, conn)?;
    }
    Ok(())
}

/// Acknowledges a stage in all leaves under number `seq` of connection `conn`: in those that it touched. No
/// lower stage has changes. References stay on their elements; acknowledged ones may have to slide then.
pub(crate) fn ack_in<C: Content>(
    blocks: &mut Blocks<TreeLeaf<C>>,
    touched: &mut VecDeque<StageNodes>,
    refs: &mut LeafRefs,
    alloc: Global,
    stage: u64,
    seq: u64,
    conn: u32,
) -> Result<(), OutOfMemory>
    requires usable { IsTrue blocks.old.usable }
    requires tracks { Tracks blocks.old.leaves touched.old.items }
    requires sound { IsSoundOn C.units blocks.old.leaves refs.old.anchors refs.old.unsettled.items }
    requires lowest { All (λ e. IsLowestChange stage e.overlay) (elements C.units C.by blocks.old.leaves) }
    ensures leaves { OnOk result (blocks.new.leaves ≡ map (acked_pair C.stamped stage seq conn) blocks.old.leaves) }
    ensures tracks { OnOk result (Tracks blocks.new.leaves touched.new.items) }
    ensures refs { OnOk result
        (KeepsReferences (references_on C.units C.by blocks.old.leaves refs.old.anchors)
        (references_on C.units C.by blocks.new.leaves refs.new.anchors)) }
    ensures sound { OnOk result (IsSoundOn C.units blocks.new.leaves refs.new.anchors refs.new.unsettled.items) }
    ensures usable { OnOk result (blocks.new.usable ≡ true) }
    ensures floor { blocks.new.floor ≡ blocks.old.floor }
{
    // What holds of the leaves at any time is read off its contract.
    let _first = reads::first(blocks);
    let taken = take_stage(touched, stage);
    let nodes = taken.as_slice();
    refs.unsettle_all(nodes)?;
    ack_nodes(blocks, alloc, nodes, stage, seq, conn)
}
