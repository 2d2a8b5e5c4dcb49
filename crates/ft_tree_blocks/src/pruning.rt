//! Leaves in blocks: nodes of leaves that have nothing of a stage any more go from the list of that.

ghost use Rattle.std.specs.Prelude.{◌≡◌, All, IfOk, IsTrue, OnOk, filter, map};
ghost use Rattle.ft_block.specs.Leaves.{IsLeafIn};
ghost use Rattle.ft_tree_blocks.specs.declared.next_stages.Wanted.TheVariants.{Anything};
ghost use Rattle.ft_tree_blocks.specs.Pruned.{AreLeaves, all_pruned, pruned};
ghost use Rattle.ft_tree_blocks.specs.Touched.{Tracks};
ghost use Rattle.ft_tree_blocks.specs.Wanted.{is_wanted_at};

use crate::acks::is_touched_by;
use crate::reads;
use crate::stage_nodes::{Nodes, StageNodes, TouchedNode};
use crate::touched::{allocator_of, drop_empty};
use ft_base::OutOfMemory;
use ft_block::Blocks;
use ft_tree_leaves::{Content, TreeLeaf};
use smallvec::SmallVec;
use std::alloc::Global;
use std::collections::VecDeque;

// Those of the nodes whose leaf has something of the stage.
fn touched_of<C: Content>(
    blocks: &Blocks<TreeLeaf<C>>,
    alloc: Global,
    nodes: &[TouchedNode],
    stage: u64,
) -> Result<Nodes, OutOfMemory>
    requires usable { IsTrue blocks.now.usable }
    requires live { All (λ id. IsLeafIn blocks.now.leaves id) nodes.now }
    ensures { IfOk result (λ v. v.items ≡ filter (is_wanted_at Anything blocks.now.leaves stage) nodes.now) }
{
    let mut touched = SmallVec::new(alloc);
    for id in nodes {
        if is_touched_by(reads::leaf(blocks, id.0), stage) {
            touched.push(*id)?;
        }
    }
    Ok(touched)
}

// Takes the nodes off a list whose leaf has nothing of its stage.
fn prune_list<C: Content>(
    blocks: &Blocks<TreeLeaf<C>>,
    list: &mut StageNodes,
    alloc: Global,
) -> Result<(), OutOfMemory>
    requires usable { IsTrue blocks.now.usable }
    requires live { All (λ id. IsLeafIn blocks.now.leaves id) list.old.nodes }
    ensures { OnOk result (list.new ≡ pruned blocks.now.leaves list.old) }
{
    let nodes = touched_of(blocks, alloc, list.nodes(), list.stage())?;
    list.set_nodes(nodes);
    Ok(())
}

// The same of each list of a slice.
fn prune_each<C: Content>(
    blocks: &Blocks<TreeLeaf<C>>,
    touched: &mut [StageNodes],
    alloc: Global,
) -> Result<(), OutOfMemory>
    requires usable { IsTrue blocks.now.usable }
    requires live { AreLeaves blocks.now.leaves touched.old }
    ensures { OnOk result (touched.new ≡ map (pruned blocks.now.leaves) touched.old) }
{
    for list in touched.iter_mut() {
        prune_list(blocks, list, alloc)?;
    }
    Ok(())
}

// Takes the nodes off all lists whose leaf has nothing of the list's stage.
fn prune_all<C: Content>(
    blocks: &Blocks<TreeLeaf<C>>,
    touched: &mut VecDeque<StageNodes>,
) -> Result<(), OutOfMemory>
    requires usable { IsTrue blocks.now.usable }
    requires tracks { Tracks blocks.now.leaves touched.old.items }
    ensures { OnOk result (touched.new.items ≡ map (pruned blocks.now.leaves) touched.old.items) }
{
    let alloc = allocator_of(touched);
    prune_each(blocks, touched.make_contiguous(), alloc)
}

/// The same, and lists that have no node then go.
pub(crate) fn prune_in<C: Content>(
    blocks: &Blocks<TreeLeaf<C>>,
    touched: &mut VecDeque<StageNodes>,
) -> Result<(), OutOfMemory>
    requires usable { IsTrue blocks.now.usable }
    requires tracks { Tracks blocks.now.leaves touched.old.items }
    ensures lists { OnOk result (touched.new.items ≡ all_pruned blocks.now.leaves touched.old.items) }
    ensures tracks { OnOk result (Tracks blocks.now.leaves touched.new.items) }
{
    prune_all(blocks, touched)?;
    drop_empty(touched);
    Ok(())
}
