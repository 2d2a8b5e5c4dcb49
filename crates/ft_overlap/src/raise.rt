//! What blocks name, where a new item that was put below them ends behind it.

ghost use Rattle.std.specs.Prelude.{◌≡◌, ℕ, Some, None, IsSome, IsTrue, false};
ghost use Rattle.ft_arena.specs.Forest.{IsForest, block_value, kids_of};
ghost use Rattle.ft_arena.specs.Ids.{times};
ghost use Rattle.ft_shape.specs.Tree.{IsPartTree};
ghost use Rattle.ft_shape.specs.Steps.{SameShape};
ghost use Rattle.ft_shape.specs.Told.{KeepsBut, Retells};
ghost use Rattle.ft_overlap.specs.Inside.{IsSpan, SpansLast, EndsKnown, IsUnraised, Rises};

use crate::items::{Item, Places, Span};
use ft_arena::{Arena, Node, NodeId};
use ft_base::Steps;
use ft_shape::Headed;
use std::sync::ledger::Ledger;

// Has the block name the new item if that ends behind the one that it names, and tells whether it does.
fn raise<P: Places, G: Ledger>(
    arena: &mut Arena<Item, Headed<Span>>,
    block: NodeId,
    item: Item,
    at: &P,
    steps: &mut Steps<G>,
) -> bool
    requires block { IsSome (block_value arena.old block) }
    requires forest { IsForest arena.old }
    requires apart { times (kids_of arena.old block) block ≡ 0 }
    requires item { P.Knows at.now item.end }
    requires known { EndsKnown (P.Knows at.now) arena.old }
    requires unraised { IsUnraised (P.end_place at.now) item arena.old (Some block) }
    ensures shape { SameShape arena.old arena.new }
    ensures one { Retells IsSpan arena.old arena.new block }
    ensures last { Retells (SpansLast (P.end_place at.now)) arena.old arena.new block }
    ensures known { EndsKnown (P.Knows at.now) arena.new }
    ensures same { result ≡ false → arena.new ≡ arena.old }
    ensures rises { IsTrue result → Rises (P.end_place at.now) item arena.old arena.new block }
{
    let Node::Block { value, .. } = arena.read(block, steps) else {
        unreachable!();
    };
    let height = value.height;
    let start = value.sum.start;
    if !at.is_before(value.sum.last.end, item.end) {
        return false;
    }
    *arena.block_mut(block) = Headed {
        height,
        sum: Span { start, last: item },
    };
    true
}

// From a block up, each may name an item that ends before the new one: has them name that, up to one that names a later one.
pub(crate) fn raise_up<P: Places, G: Ledger>(
    arena: &mut Arena<Item, Headed<Span>>,
    _root: NodeId,
    stale: Option<NodeId>,
    item: Item,
    at: &P,
    steps: &mut Steps<G>,
)
    requires tree { IsPartTree arena.old _root None None }
    requires block { (b : ℕ) → stale ≡ Some b → IsSome (block_value arena.old b) }
    requires item { P.Knows at.now item.end }
    requires known { EndsKnown (P.Knows at.now) arena.old }
    requires one { KeepsBut IsSpan arena.old stale }
    requires last { KeepsBut (SpansLast (P.end_place at.now)) arena.old stale }
    requires unraised { IsUnraised (P.end_place at.now) item arena.old stale }
    ensures shape { SameShape arena.old arena.new }
    ensures one { KeepsBut IsSpan arena.new None }
    ensures last { KeepsBut (SpansLast (P.end_place at.now)) arena.new None }
{
    let mut stale = stale;
    'up: while let Some(block) = stale {
        if !raise(arena, block, item, at, steps) {
            return;
        }
        stale = arena.parent(block);
    }
}
