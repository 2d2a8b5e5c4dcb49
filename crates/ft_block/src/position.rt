//! How many elements a view sees left of a leaf.

ghost use Rattle.std.specs.Prelude.{◌≡◌, ◌+◌, ◌^◌, ◌<◌, ◌≤◌, Some, None, IsSome, length, take};
ghost use Rattle.ft_arena.specs.Forest.{IsForest, block_value, kids_of, leaf_value};
ghost use Rattle.ft_arena.specs.Ids.{times};
ghost use Rattle.ft_shape.specs.Tree.{IsTree, SumsBut, length_of, total, numbers_before};
ghost use Rattle.ft_block.specs.Tree.{AreFromFloor, KeepsLengths, by_view};

use crate::find::length_at;
use crate::leaves::{Leaf, View};
use crate::summaries::Summary;
use ft_arena::{Arena, Node, NodeId};
use ft_base::Steps;
use ft_shape::{Headed, child_place};
use std::sync::ledger::Ledger;

// The lengths, in a kept view, of the children from this place to that one.
fn length_between<L: Leaf, G: Ledger>(
    arena: &Arena<L, Headed<Summary>>,
    block: NodeId,
    low: usize,
    high: usize,
    floor: u64,
    view: View,
    steps: &mut Steps<G>,
) -> u64
    requires forest { IsForest arena.now }
    requires block { IsSome (block_value arena.now block) }
    requires kept { KeepsLengths floor view }
    requires floors { AreFromFloor floor arena.now }
    requires order { low ≤ high }
    requires inside { high ≤ length (kids_of arena.now block) }
    requires fits { total (length_of (by_view L.size L.element view) arena.now) (kids_of arena.now block) < 2 ^ 64 }
    ensures { total (length_of (by_view L.size L.element view) arena.now) (take low (kids_of arena.now block)) + result
        ≡ total (length_of (by_view L.size L.element view) arena.now) (take high (kids_of arena.now block)) }
{
    let Node::Block { kids, .. } = arena.read(block, steps) else {
        unreachable!();
    };
    let mut sum = 0;
    for i in low..high {
        let Some(kid) = kids.get(i) else {
            unreachable!();
        };
        sum += length_at(arena.read(kid, steps), floor, view);
    }
    sum
}

// The lengths, in a kept view, of the children before this one, from the nearer end.
fn length_before<L: Leaf, G: Ledger>(
    arena: &Arena<L, Headed<Summary>>,
    block: NodeId,
    child: NodeId,
    floor: u64,
    view: View,
    steps: &mut Steps<G>,
) -> u64
    requires forest { IsForest arena.now }
    requires block { IsSome (block_value arena.now block) }
    requires kept { KeepsLengths floor view }
    requires floors { AreFromFloor floor arena.now }
    requires child { 1 ≤ times (kids_of arena.now block) child }
    requires all { length_of (by_view L.size L.element view) arena.now block ≡ total (length_of (by_view L.size L.element view) arena.now) (kids_of arena.now block) }
    requires fits { total (length_of (by_view L.size L.element view) arena.now) (kids_of arena.now block) < 2 ^ 64 }
    ensures { result ≡ total (length_of (by_view L.size L.element view) arena.now) (numbers_before (kids_of arena.now block) child) }
{
    let (place, count) = child_place(arena, block, child, steps);
    if place <= count / 2 {
        return length_between(arena, block, 0, place, floor, view, steps);
    }
    let all = length_at(arena.read(block, steps), floor, view);
    all - length_between(arena, block, place, count, floor, view, steps)
}

// The lengths, in a kept view, of the leaves before this one: up from the leaf, past the children
// that it stands behind.
pub(crate) fn kept_before<L: Leaf, G: Ledger>(
    arena: &Arena<L, Headed<Summary>>,
    _root: NodeId,
    leaf: NodeId,
    floor: u64,
    view: View,
    steps: &mut Steps<G>,
) -> u64
    requires tree { IsTree arena.now _root }
    requires kept { KeepsLengths floor view }
    requires floors { AreFromFloor floor arena.now }
    requires sums { SumsBut (by_view L.size L.element view) arena.now None }
    requires leaf { IsSome (leaf_value arena.now leaf) }
    requires fits { total (length_of (by_view L.size L.element view) arena.now) arena.now.leaves < 2 ^ 64 }
    ensures { result ≡ total (length_of (by_view L.size L.element view) arena.now) (numbers_before arena.now.leaves leaf) }
{
    let mut sum = 0;
    let mut at = leaf;
    'up: while let Some(block) = arena.parent(at) {
        sum += length_before(arena, block, at, floor, view, steps);
        at = block;
    }
    sum
}

// The value of a leaf, for one step.
pub(crate) fn leaf_at<'a, L: Leaf, G: Ledger>(
    arena: &'a Arena<L, Headed<Summary>>,
    id: NodeId,
    steps: &mut Steps<G>,
) -> &'a L
    requires { IsSome (leaf_value arena.now id) }
    ensures value { leaf_value arena.now id ≡ Some result.now }
    ensures tick { steps.new ≡ steps.old + 1 }
{
    match arena.read(id, steps) {
        Node::Leaf { value } => value,
        Node::Block { .. } => unreachable!(),
    }
}
