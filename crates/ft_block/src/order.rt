//! Which of two leaves stands first, by the children of the nearest block above both.

ghost use Rattle.std.specs.Prelude.{◌≡◌, ◌≤◌, IsSome, length, nat_lt};
ghost use Rattle.ft_arena.specs.Forest.{IsForest, block_value, kids_of, leaf_value};
ghost use Rattle.ft_arena.specs.Ids.{times};
ghost use Rattle.ft_shape.specs.Tree.{IsTree, numbers_before};

use crate::leaves::Leaf;
use crate::summaries::Summary;
use ft_arena::{Arena, Node, NodeId};
use ft_base::Steps;
use ft_shape::Headed;
use std::sync::ledger::Ledger;

// Whether the first of two children of a block stands before the second: which of them is met first.
fn is_child_before<L: Leaf, G: Ledger>(
    arena: &Arena<L, Headed<Summary>>,
    block: NodeId,
    first: NodeId,
    second: NodeId,
    steps: &mut Steps<G>,
) -> bool
    requires forest { IsForest arena.now }
    requires block { IsSome (block_value arena.now block) }
    requires first { 1 ≤ times (kids_of arena.now block) first }
    requires second { 1 ≤ times (kids_of arena.now block) second }
    ensures { result ≡ nat_lt (length (numbers_before (kids_of arena.now block) first)) (length (numbers_before (kids_of arena.now block) second)) }
{
    let Node::Block { kids, .. } = arena.read(block, steps) else {
        unreachable!();
    };
    let mut i = 0;
    while let Some(kid) = kids.get(i) {
        if kid == second {
            return false;
        }
        if kid == first {
            return true;
        }
        i += 1;
    }
    unreachable!()
}

// Whether the first of two leaves stands before the second: up from both until they have one parent.
pub(crate) fn is_leaf_before<L: Leaf, G: Ledger>(
    arena: &Arena<L, Headed<Summary>>,
    _root: NodeId,
    first: NodeId,
    second: NodeId,
    steps: &mut Steps<G>,
) -> bool
    requires tree { IsTree arena.now _root }
    requires first { IsSome (leaf_value arena.now first) }
    requires second { IsSome (leaf_value arena.now second) }
    ensures { result ≡ nat_lt (length (numbers_before arena.now.leaves first)) (length (numbers_before arena.now.leaves second)) }
{
    let mut at = first;
    let mut beside = second;
    'up: while let Some(block) = arena.parent(at) {
        let Some(other) = arena.parent(beside) else {
            unreachable!();
        };
        if block == other {
            return is_child_before(arena, block, at, beside, steps);
        }
        at = block;
        beside = other;
    }
    false
}
