//! Where a new item stands in the list.

ghost use Rattle.std.specs.Prelude.{◌≡◌, ℕ, Some, None, IsSome};
ghost use Rattle.ft_arena.specs.Forest.{entry, leaf_value, block_value, kids_of};
ghost use Rattle.ft_shape.specs.Tree.{IsTree};
ghost use Rattle.ft_shape.specs.Told.{KeepsBut};
ghost use Rattle.ft_overlap.specs.Items.{IsRising};
ghost use Rattle.ft_overlap.specs.Inside.{IsPlaceFor, IsSpan, items_of};
ghost use Rattle.ft_overlap.specs.Search.{StartsBelow, IsStartedBy, IsChildBy};

use crate::items::{Item, Places, Span};
use crate::names::span_of;
use ft_arena::{Arena, Kids, Node, NodeId};
use ft_base::Steps;
use ft_shape::Headed;
use std::sync::ledger::Ledger;

// The number of the end at which the first item below a node starts.
fn start_below<G: Ledger>(
    arena: &Arena<Item, Headed<Span>>,
    _root: NodeId,
    node: NodeId,
    steps: &mut Steps<G>,
) -> u64
    requires tree { IsTree arena.now _root }
    requires spans { KeepsBut IsSpan arena.now None }
    requires live { IsSome (entry arena.now node) }
    ensures { StartsBelow arena.now node result }
{
    span_of(arena.read(node, steps)).start
}

// Of the children of a block whose first item starts by an end's place, the last of which that holds: by halves.
fn child_by<P: Places, G: Ledger>(
    arena: &Arena<Item, Headed<Span>>,
    _root: NodeId,
    _block: NodeId,
    kids: &Kids,
    start: u64,
    at: &P,
    steps: &mut Steps<G>,
) -> NodeId
    requires tree { IsTree arena.now _root }
    requires spans { KeepsBut IsSpan arena.now None }
    requires block { IsSome (block_value arena.now _block) }
    requires kids { kids_of arena.now _block ≡ kids.now }
    requires start { P.Knows at.now start }
    requires first { IsStartedBy (P.end_place at.now) (P.end_place at.now start) arena.now _block }
    requires known { (id : ℕ) (x : Item) → leaf_value arena.now id ≡ Some x → P.Knows at.now x.start }
    ensures { IsChildBy (P.end_place at.now) (P.end_place at.now start) arena.now _block kids.now result }
{
    let Some(first) = kids.get(0) else {
        unreachable!();
    };
    let mut child = first;
    let mut low = 0;
    let mut high = kids.len();
    'halves: while low + 1 < high {
        let middle = low + (high - low) / 2;
        let Some(kid) = kids.get(middle) else {
            unreachable!();
        };
        if at.is_before(start, start_below(arena, _root, kid, steps)) {
            high = middle;
        } else {
            child = kid;
            low = middle;
        }
    }
    child
}

// The last leaf before the first item that starts behind this one, if that isn't the first: down from the root.
pub(crate) fn place_for<P: Places, G: Ledger>(
    arena: &Arena<Item, Headed<Span>>,
    root: NodeId,
    item: &Item,
    at: &P,
    steps: &mut Steps<G>,
) -> Option<NodeId>
    requires tree { IsTree arena.now root }
    requires spans { KeepsBut IsSpan arena.now None }
    requires rising { IsRising (P.end_place at.now) (items_of arena.now arena.now.leaves) }
    requires start { P.Knows at.now item.now.start }
    requires known { (id : ℕ) (x : Item) → leaf_value arena.now id ≡ Some x → P.Knows at.now x.start }
    ensures { IsPlaceFor (P.end_place at.now) (P.end_place at.now item.now.start) arena.now result }
{
    if at.is_before(item.start, start_below(arena, root, root, steps)) {
        return None;
    }
    let mut node = root;
    'levels: while let Node::Block { kids, .. } = arena.read(node, steps) {
        node = child_by(arena, root, node, kids, item.start, at, steps);
    }
    Some(node)
}
