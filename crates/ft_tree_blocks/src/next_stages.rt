//! Leaves in blocks: the next pending stage that removes, and the next of which a leaf has anything, by the lists of what each
//! stage touched.

ghost use Rattle.std.specs.Prelude.{◌≡◌, ◌&&◌, All, IsTrue, nat_lt};
ghost use Rattle.std.specs.List.{list_any};
ghost use Rattle.ft_block.specs.Leaves.{IsLeafIn};
ghost use Rattle.ft_tree_blocks.specs.Touched.{Tracks};
ghost use Rattle.ft_tree_blocks.specs.Wanted.{IsLeastStage, has_wanted, is_wanted_at};

use crate::acks::is_touched_by;
use crate::reads;
use crate::stage_nodes::{StageNodes, TouchedNode};
use crate::touched::stage_place;
use ft_block::Blocks;
use ft_tree_leaves::stamps::has_stage;
use ft_tree_leaves::{Content, TreeLeaf};
use std::collections::VecDeque;

/// What a leaf is to have of a pending stage.
#[derive(Clone, Copy, Drop)]
pub enum Wanted {
    /// A removal mark.
    Removal,
    /// Its insertion, a removal mark or changes.
    Anything,
}

// Whether the leaf has that of the stage.
fn has_wanted<C: Content>(leaf: &TreeLeaf<C>, stage: u64, wanted: Wanted) -> bool
    ensures { result ≡ has_wanted wanted stage leaf.now }
{
    match wanted {
        Wanted::Removal => has_stage(leaf.stamps.dels.as_slice(), stage),
        Wanted::Anything => is_touched_by(leaf, stage),
    }
}

// Whether the leaf of one of these nodes has that of the stage.
fn is_any_wanted<C: Content>(
    blocks: &Blocks<TreeLeaf<C>>,
    nodes: &[TouchedNode],
    stage: u64,
    wanted: Wanted,
) -> bool
    requires usable { IsTrue blocks.now.usable }
    requires live { All (λ id. IsLeafIn blocks.now.leaves id) nodes.now }
    ensures { result ≡ list_any (is_wanted_at wanted blocks.now.leaves stage) nodes.now }
{
    for id in nodes {
        if has_wanted(reads::leaf(blocks, id.0), stage, wanted) {
            return true;
        }
    }
    false
}

// Whether the list is of a higher stage, and one of its leaves has that of it.
fn is_wanted_above<C: Content>(
    blocks: &Blocks<TreeLeaf<C>>,
    list: &StageNodes,
    stage: u64,
    wanted: Wanted,
) -> bool
    requires usable { IsTrue blocks.now.usable }
    requires live { All (λ id. IsLeafIn blocks.now.leaves id) list.now.nodes }
    ensures { result ≡ (nat_lt stage list.now.stage && list_any (is_wanted_at wanted blocks.now.leaves list.now.stage) list.now.nodes) }
{
    stage < list.stage() && is_any_wanted(blocks, list.nodes(), list.stage(), wanted)
}

/// The least pending stage above this one of which a leaf has that.
pub(crate) fn next_wanted_in<C: Content>(
    blocks: &Blocks<TreeLeaf<C>>,
    touched: &VecDeque<StageNodes>,
    stage: u64,
    wanted: Wanted,
) -> Option<u64>
    requires usable { IsTrue blocks.now.usable }
    requires tracks { Tracks blocks.now.leaves touched.now.items }
    ensures { IsLeastStage stage (is_wanted_at wanted blocks.now.leaves) result }
{
    for list in touched.range(stage_place(touched, stage)..) {
        if is_wanted_above(blocks, list, stage, wanted) {
            return Some(list.stage());
        }
    }
    None
}
