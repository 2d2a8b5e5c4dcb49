//! Leaves in blocks: the leaves that have something of a pending stage, in the order of the list.

ghost use Rattle.std.specs.Prelude.{◌≡◌, All, IfOk, IsTrue, None, map};
ghost use Rattle.ft_block.specs.Leaves.{IsLeafIn};
ghost use Rattle.ft_tree_leaves.specs.Edits.{touched_nodes};
ghost use Rattle.ft_tree_blocks.specs.StageLeaves.{is_given_node, touched_places, unrepeated};
ghost use Rattle.ft_tree_blocks.specs.Touched.{Tracks};

use crate::acks::is_touched_by;
use crate::reads;
use crate::stage_nodes::{StageNodes, TouchedNode};
use crate::touched::{allocator_of, nodes_of};
use ft_arena::NodeId;
use ft_base::OutOfMemory;
use ft_block::{Blocks, LenView};
use ft_tree_leaves::{Content, TreeLeaf};
use std::alloc::Global;
use std::collections::VecDeque;

// Those of the nodes whose leaf has something of the stage, each with how many elements stand left of it.
fn touched_places<C: Content>(
    blocks: &Blocks<TreeLeaf<C>>,
    alloc: Global,
    nodes: &[TouchedNode],
    stage: u64,
) -> Result<Vec<(u64, NodeId)>, OutOfMemory>
    requires usable { IsTrue blocks.now.usable }
    requires live { All (λ id. IsLeafIn blocks.now.leaves id) nodes.now }
    ensures { IfOk result (λ v. v.items ≡ touched_places C.units blocks.now.leaves stage nodes.now) }
{
    let mut places = Vec::new(alloc);
    for id in nodes {
        if is_touched_by(reads::leaf(blocks, id.0), stage) {
            places.push((blocks.position_of(id.0, LenView::All), id.0))?;
        }
    }
    Ok(places)
}

// Whether the node is the given one.
fn is_given_node(given: &Option<NodeId>, id: NodeId) -> bool
    ensures { result ≡ is_given_node given.now id }
{
    match given {
        Some(node) => node.0 == id.0,
        None => false,
    }
}

// The nodes of these, of equal neighbours the first alone.
fn unrepeated(alloc: Global, places: &[(u64, NodeId)]) -> Result<Vec<NodeId>, OutOfMemory>
    ensures { IfOk result (λ v. v.items ≡ unrepeated None (map (λ p. p.1) places.now)) }
{
    let mut nodes = Vec::new(alloc);
    let mut last = None;
    for (_, id) in places {
        if !is_given_node(&last, *id) {
            nodes.push(*id)?;
        }
        last = Some(*id);
    }
    Ok(nodes)
}

/// The nodes of the leaves that have something of the stage, in the order of the list.
pub(crate) fn stage_leaves_in<C: Content>(
    blocks: &Blocks<TreeLeaf<C>>,
    touched: &VecDeque<StageNodes>,
    stage: u64,
) -> Result<Vec<NodeId>, OutOfMemory>
    requires usable { IsTrue blocks.now.usable }
    requires tracks { Tracks blocks.now.leaves touched.now.items }
    ensures { IfOk result (λ v. v.items ≡ touched_nodes stage blocks.now.leaves) }
{
    // What holds of the leaves at any time is read off its contract.
    let _first = reads::first(blocks);
    let alloc = allocator_of(touched);
    let mut places = touched_places(blocks, alloc, nodes_of(touched, stage), stage)?;
    places.sort_unstable_by_key(|p| p.0);
    unrepeated(alloc, places.as_slice())
}
