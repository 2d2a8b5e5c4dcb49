//! What blocks keep, made again from their children.

ghost use Rattle.std.specs.Prelude.{◌≡◌, ◌⊎◌, ℕ, ◌≤◌, ◌≤ℤ◌, false, Some, None, IsSome, length, map};
ghost use Rattle.ft_arena.specs.Forest.{IsForest, entry, block_value, kids_of, leaf_of_node, block_of_node};
ghost use Rattle.ft_arena.specs.Ids.{times};
ghost use Rattle.ft_shape.specs.Tree.{IsPartTree};
ghost use Rattle.ft_shape.specs.Steps.{SameShape};
ghost use Rattle.ft_shape.specs.Told.{sum_of, told, KeepsBut, Retells};
ghost use Rattle.ft_overlap.specs.Inside.{either_named, either_start, span_last, span_start, first_start, IsSpan, SpansLast, NamesOne, NamesLast, EndsKnown};

use crate::items::{Item, Places, Span};
use ft_arena::{Arena, Kids, Node, NodeId};
use ft_base::Steps;
use ft_shape::Headed;
use std::sync::ledger::Ledger;

// The span of a node: that of a leaf is its item, and a block keeps one.
pub(crate) fn span_of(node: &Node<Item, Headed<Span>>) -> Span
    ensures last { either_named (leaf_of_node node.now) (span_last (sum_of (block_of_node node.now))) ≡ Some result.last }
    ensures start { either_start (leaf_of_node node.now) (span_start (sum_of (block_of_node node.now))) ≡ Some result.start }
{
    match node {
        Node::Leaf { value } => Span {
            start: value.start,
            last: *value,
        },
        Node::Block { value, .. } => value.sum,
    }
}

// Which of the two ends behind the other; the first where both end at one place.
fn later<P: Places>(x: Item, y: Item, at: &P) -> Item
    requires first { P.Knows at.now x.end }
    requires second { P.Knows at.now y.end }
    ensures one { (result ≡ x) ⊎ (result ≡ y) }
    ensures first { P.end_place at.now x.end ≤ℤ P.end_place at.now result.end }
    ensures second { P.end_place at.now y.end ≤ℤ P.end_place at.now result.end }
{
    if at.is_before(x.end, y.end) { y } else { x }
}

// The span of all children.
fn span_over<P: Places, G: Ledger>(
    arena: &Arena<Item, Headed<Span>>,
    kids: &Kids,
    at: &P,
    steps: &mut Steps<G>,
) -> Span
    requires some { 1 ≤ length kids.now }
    requires live { (id : ℕ) → 1 ≤ times kids.now id → IsSome (entry arena.now id) }
    requires known { EndsKnown (P.Knows at.now) arena.now }
    ensures one { NamesOne result.last (map (told arena.now) kids.now) }
    ensures last { NamesLast (P.end_place at.now) result.last (map (told arena.now) kids.now) }
    ensures start { first_start (map (told arena.now) kids.now) ≡ Some result.start }
{
    // That they are at most eight is read off its contract.
    let _few = kids.len();
    let Some(first) = kids.get(0) else {
        unreachable!();
    };
    let span = span_of(arena.read(first, steps));
    let mut last = span.last;
    let mut i = 1;
    while let Some(kid) = kids.get(i) {
        last = later(last, span_of(arena.read(kid, steps)).last, at);
        i += 1;
    }
    Span {
        start: span.start,
        last,
    }
}

// Has the block keep the span of its children, and tells whether it kept another one before.
pub(crate) fn rename<P: Places, G: Ledger>(
    arena: &mut Arena<Item, Headed<Span>>,
    block: NodeId,
    at: &P,
    steps: &mut Steps<G>,
) -> bool
    requires block { IsSome (block_value arena.old block) }
    requires forest { IsForest arena.old }
    requires apart { times (kids_of arena.old block) block ≡ 0 }
    requires filled { 1 ≤ length (kids_of arena.old block) }
    requires known { EndsKnown (P.Knows at.now) arena.old }
    ensures shape { SameShape arena.old arena.new }
    ensures one { Retells IsSpan arena.old arena.new block }
    ensures last { Retells (SpansLast (P.end_place at.now)) arena.old arena.new block }
    ensures known { EndsKnown (P.Knows at.now) arena.new }
    ensures same { result ≡ false → arena.new ≡ arena.old }
{
    let Node::Block { kids, value } = arena.read(block, steps) else {
        unreachable!();
    };
    let height = value.height;
    let before = value.sum;
    let sum = span_over(arena, kids, at, steps);
    if sum == before {
        return false;
    }
    *arena.block_mut(block) = Headed { height, sum };
    true
}

// From a block up, each may keep another span than its children let it: makes these anew, up to one that keeps what it did.
pub(crate) fn rename_up<P: Places, G: Ledger>(
    arena: &mut Arena<Item, Headed<Span>>,
    _root: NodeId,
    _apart: Option<NodeId>,
    _short: Option<NodeId>,
    stale: Option<NodeId>,
    at: &P,
    steps: &mut Steps<G>,
)
    requires tree { IsPartTree arena.old _root _apart _short }
    requires block { (b : ℕ) → stale ≡ Some b → IsSome (block_value arena.old b) }
    requires filled { (b : ℕ) → IsSome (block_value arena.old b) → 1 ≤ length (kids_of arena.old b) }
    requires known { EndsKnown (P.Knows at.now) arena.old }
    requires one { KeepsBut IsSpan arena.old stale }
    requires last { KeepsBut (SpansLast (P.end_place at.now)) arena.old stale }
    ensures shape { SameShape arena.old arena.new }
    ensures one { KeepsBut IsSpan arena.new None }
    ensures last { KeepsBut (SpansLast (P.end_place at.now)) arena.new None }
{
    let mut stale = stale;
    'up: while let Some(block) = stale {
        if !rename(arena, block, at, steps) {
            return;
        }
        stale = arena.parent(block);
    }
}
