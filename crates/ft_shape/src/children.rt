//! The children of a block: which they are, and how those of a full block are shared by two.

ghost use Rattle.std.specs.Prelude.{◌≡◌, ◌≢◌, ◌<◌, ◌≤◌, Some, None, IsSome, length, slice_get, []};
ghost use Rattle.ft_arena.specs.Forest.{IsForest, entry, block_value, kids_of, parent_of};
ghost use Rattle.ft_arena.specs.Ids.{times};
ghost use Rattle.ft_shape.specs.Tree.{kind_of};
ghost use Rattle.ft_shape.specs.Steps.{Halves, PutsInHalf};

use crate::headed::Headed;
use ft_arena::{Arena, Node, NodeId};
use ft_base::Steps;
use std::sync::ledger::Ledger;

/// The place of a child among a block's children, and how many there are.
pub fn child_place<L, S, G: Ledger>(
    arena: &Arena<L, Headed<S>>,
    block: NodeId,
    child: NodeId,
    steps: &mut Steps<G>,
) -> (usize, usize)
    requires block { IsSome (block_value arena.now block) }
    requires child { 1 ≤ times (kids_of arena.now block) child }
    ensures place { slice_get (kids_of arena.now block) result.0 ≡ Some child }
    ensures count { result.1 ≡ length (kids_of arena.now block) }
{
    let Node::Block { kids, .. } = arena.read(block, steps) else {
        unreachable!();
    };
    let count = kids.len();
    let mut i = 0;
    while let Some(kid) = kids.get(i) {
        if kid == child {
            return (i, count);
        }
        i += 1;
    }
    unreachable!()
}

/// The child at this place among a block's children.
pub fn child_at<L, S, G: Ledger>(
    arena: &Arena<L, Headed<S>>,
    block: NodeId,
    place: usize,
    steps: &mut Steps<G>,
) -> NodeId
    requires block { IsSome (block_value arena.now block) }
    requires place { place < length (kids_of arena.now block) }
    ensures { slice_get (kids_of arena.now block) place ≡ Some result }
{
    let Node::Block { kids, .. } = arena.read(block, steps) else {
        unreachable!();
    };
    match kids.get(place) {
        Some(kid) => kid,
        None => unreachable!(),
    }
}

/// How many children a block has.
pub fn count_of<L, S, G: Ledger>(
    arena: &Arena<L, Headed<S>>,
    block: NodeId,
    steps: &mut Steps<G>,
) -> usize
    requires { IsSome (block_value arena.now block) }
    ensures value { result ≡ length (kids_of arena.now block) }
    ensures few { result ≤ 8 }
{
    let Node::Block { kids, .. } = arena.read(block, steps) else {
        unreachable!();
    };
    kids.len()
}

/// How many levels of blocks a block heads.
pub fn height_at<L, S, G: Ledger>(
    arena: &Arena<L, Headed<S>>,
    block: NodeId,
    steps: &mut Steps<G>,
) -> u64
    requires { IsSome (block_value arena.now block) }
    ensures { kind_of arena.now block ≡ Some (Some result) }
{
    match arena.read(block, steps) {
        Node::Block { value, .. } => value.height,
        Node::Leaf { .. } => unreachable!(),
    }
}

/// Moves the children from the fifth on to a block that has none.
pub fn move_half<L, S>(arena: &mut Arena<L, Headed<S>>, block: NodeId, rear: NodeId)
    requires forest { IsForest arena.old }
    requires block { IsSome (block_value arena.old block) }
    requires rear { IsSome (block_value arena.old rear) }
    requires full { length (kids_of arena.old block) ≡ 8 }
    requires empty { kids_of arena.old rear ≡ [] }
    requires alone { parent_of arena.old rear ≡ None }
    requires differ { block ≢ rear }
    ensures { Halves arena.old arena.new block rear }
{
    for k in 0..4 {
        let child = arena.take_child(block, 4);
        arena.put_child(rear, k, child);
    }
}

/// Puts a node at this place among the children of two blocks with four each.
pub fn put_in_half<L, S>(
    arena: &mut Arena<L, Headed<S>>,
    block: NodeId,
    rear: NodeId,
    place: usize,
    id: NodeId,
)
    requires forest { IsForest arena.old }
    requires block { IsSome (block_value arena.old block) }
    requires rear { IsSome (block_value arena.old rear) }
    requires front { length (kids_of arena.old block) ≡ 4 }
    requires back { length (kids_of arena.old rear) ≡ 4 }
    requires differ { block ≢ rear }
    requires place { place ≤ 8 }
    requires id { IsSome (entry arena.old id) }
    requires alone { parent_of arena.old id ≡ None }
    requires not_block { id ≢ block }
    requires not_rear { id ≢ rear }
    ensures { PutsInHalf arena.old arena.new block rear place id }
{
    if place <= 4 {
        arena.put_child(block, place, id);
    } else {
        arena.put_child(rear, place - 4, id);
    }
}
