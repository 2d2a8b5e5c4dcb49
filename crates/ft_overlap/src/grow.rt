//! How an item is put into the tree: beside another node of its level, with full blocks split on the way up.

ghost use Rattle.std.specs.Prelude.{◌≡◌, ◌≢◌, ℕ, ℤ, ◌+◌, ◌-◌, ◌^◌, ◌<◌, ◌≤◌, Some, None, IsSome, length, ◌∷◌};
ghost use Rattle.ft_arena.specs.Forest.{IsForest, entry, block_value, kids_of, parent_of, leaf_value};
ghost use Rattle.ft_arena.specs.Ids.{times, insert_after};
ghost use Rattle.ft_shape.specs.Tree.{IsTree, IsGrowing, IsBare, height_of};
ghost use Rattle.ft_shape.specs.Steps.{SplitsAt, RootsOver, InsertsLeaf};
ghost use Rattle.ft_shape.specs.Told.{KeepsBut, Retells, RetellsBoth};
ghost use Rattle.ft_overlap.specs.Inside.{IsSpan, SpansLast, EndsKnown, IsLeafPlace};

use crate::items::{Item, Places, Span};
use crate::names::{rename, rename_up};
use crate::raise::raise_up;
use ft_arena::{Arena, NodeId};
use ft_base::Steps;
use ft_shape::{Headed, child_place, count_of, height_at, move_half, put_in_half};
use std::sync::ledger::Ledger;

// What an insertion leaves: the root, and the leaf of the new item.
#[derive(Clone, Copy)]
pub(crate) struct Inserted {
    pub(crate) root: NodeId,
    pub(crate) leaf: NodeId,
}

// Splits a full block, and puts a node at this place among its children. Tells the new block.
fn split_put<P: Places, G: Ledger>(
    arena: &mut Arena<Item, Headed<Span>>,
    block: NodeId,
    place: usize,
    id: NodeId,
    item: Item,
    at: &P,
    steps: &mut Steps<G>,
) -> NodeId
    requires forest { IsForest arena.old }
    requires spare { 1 ≤ arena.old.spare }
    requires block { IsSome (block_value arena.old block) }
    requires place { place ≤ 8 }
    requires full { length (kids_of arena.old block) ≡ 8 }
    requires id { IsSome (entry arena.old id) }
    requires alone { parent_of arena.old id ≡ None }
    requires apart { times (kids_of arena.old block) block ≡ 0 }
    requires differ { id ≢ block }
    requires item { P.Knows at.now item.end }
    requires known { EndsKnown (P.Knows at.now) arena.old }
    ensures splits { SplitsAt arena.old arena.new block place id result }
    ensures one { RetellsBoth IsSpan arena.old arena.new block result }
    ensures last { RetellsBoth (SpansLast (P.end_place at.now)) arena.old arena.new block result }
    ensures known { EndsKnown (P.Knows at.now) arena.new }
{
    let height = height_at(arena, block, steps);
    let rear = arena.add_block(Headed {
        height,
        sum: Span {
            start: item.start,
            last: item,
        },
    });
    move_half(arena, block, rear);
    put_in_half(arena, block, rear, place, id);
    rename(arena, block, at, steps);
    rename(arena, rear, at, steps);
    rear
}

// Puts a new root over the old one and another node.
fn root_over<P: Places, G: Ledger>(
    arena: &mut Arena<Item, Headed<Span>>,
    root: NodeId,
    id: NodeId,
    height: u64,
    item: Item,
    at: &P,
    steps: &mut Steps<G>,
) -> NodeId
    requires forest { IsForest arena.old }
    requires spare { 1 ≤ arena.old.spare }
    requires height { height ≡ height_of arena.old root + 1 }
    requires root { IsSome (entry arena.old root) }
    requires id { IsSome (entry arena.old id) }
    requires root_alone { parent_of arena.old root ≡ None }
    requires id_alone { parent_of arena.old id ≡ None }
    requires differ { id ≢ root }
    requires item { P.Knows at.now item.end }
    requires known { EndsKnown (P.Knows at.now) arena.old }
    ensures roots { RootsOver arena.old arena.new root id result }
    ensures one { Retells IsSpan arena.old arena.new result }
    ensures last { Retells (SpansLast (P.end_place at.now)) arena.old arena.new result }
    ensures known { EndsKnown (P.Knows at.now) arena.new }
{
    let top = arena.add_block(Headed {
        height,
        sum: Span {
            start: item.start,
            last: item,
        },
    });
    arena.put_child(top, 0, root);
    arena.put_child(top, 1, id);
    rename(arena, top, at, steps);
    top
}

// Puts a node into the tree, directly after a node of its level. Tells the root, and a block among
// whose children it stands now, but which names what it named before, if there is one.
fn grow<P: Places, G: Ledger>(
    arena: &mut Arena<Item, Headed<Span>>,
    root: NodeId,
    at: NodeId,
    id: NodeId,
    item: Item,
    places: &P,
    steps: &mut Steps<G>,
) -> (NodeId, Option<NodeId>)
    requires growing { IsGrowing arena.old root at id (λ xs. insert_after xs at id) }
    requires one { KeepsBut IsSpan arena.old (parent_of arena.old at) }
    requires last { KeepsBut (SpansLast (P.end_place places.now)) arena.old (parent_of arena.old at) }
    requires spare { height_of arena.old root - height_of arena.old at + 1 ≤ arena.old.spare }
    requires tall { height_of arena.old root + 1 < 2 ^ 64 }
    requires item { P.Knows places.now item.end }
    requires known { EndsKnown (P.Knows places.now) arena.old }
    ensures tree { IsTree arena.new result.0 }
    ensures stale { (b : ℕ) → result.1 ≡ Some b → IsSome (block_value arena.new b) }
    ensures one { KeepsBut IsSpan arena.new result.1 }
    ensures last { KeepsBut (SpansLast (P.end_place places.now)) arena.new result.1 }
    ensures known { EndsKnown (P.Knows places.now) arena.new }
    ensures leaves { arena.new.leaves ≡ arena.old.leaves }
    ensures leaf_values { (x : ℕ) → leaf_value arena.new x ≡ leaf_value arena.old x }
{
    let mut at = at;
    let mut id = id;
    'up: while let Some(block) = arena.parent(at) {
        let (place, count) = child_place(arena, block, at, steps);
        if count < 8 {
            arena.put_child(block, place + 1, id);
            return (root, Some(block));
        }
        id = split_put(arena, block, place + 1, id, item, places, steps);
        at = block;
    }
    let height = height_at(arena, root, steps);
    let top = root_over(arena, root, id, height + 1, item, places, steps);
    (top, None)
}

// Puts a linked leaf at this place among the block's children; a full block is split. Tells the root.
fn put_leaf<P: Places, G: Ledger>(
    arena: &mut Arena<Item, Headed<Span>>,
    root: NodeId,
    block: NodeId,
    place: usize,
    id: NodeId,
    item: Item,
    places: &P,
    steps: &mut Steps<G>,
) -> NodeId
    requires place { IsLeafPlace arena.old root block place id item }
    requires one { KeepsBut IsSpan arena.old None }
    requires last { KeepsBut (SpansLast (P.end_place places.now)) arena.old None }
    requires spare { height_of arena.old root + 1 ≤ arena.old.spare }
    requires tall { height_of arena.old root + 1 < 2 ^ 64 }
    requires item { P.Knows places.now item.end }
    requires known { EndsKnown (P.Knows places.now) arena.old }
    ensures tree { IsTree arena.new result }
    ensures one { KeepsBut IsSpan arena.new None }
    ensures last { KeepsBut (SpansLast (P.end_place places.now)) arena.new None }
    ensures leaves { arena.new.leaves ≡ arena.old.leaves }
    ensures leaf_values { (x : ℕ) → leaf_value arena.new x ≡ leaf_value arena.old x }
{
    if count_of(arena, block, steps) < 8 {
        arena.put_child(block, place, id);
        if place == 0 {
            rename_up(arena, root, None, None, Some(block), places, steps);
            return root;
        }
        raise_up(arena, root, Some(block), item, places, steps);
        return root;
    }
    let rear = split_put(arena, block, place, id, item, places, steps);
    let (top, stale) = grow(arena, root, block, rear, item, places, steps);
    rename_up(arena, top, None, None, stale, places, steps);
    top
}

// Puts a new item directly after another.
pub(crate) fn insert_at<P: Places, G: Ledger>(
    arena: &mut Arena<Item, Headed<Span>>,
    root: NodeId,
    at: NodeId,
    item: Item,
    places: &P,
    steps: &mut Steps<G>,
) -> Inserted
    requires tree { IsTree arena.old root }
    requires spare { height_of arena.old root + 2 ≤ arena.old.spare }
    requires at { IsSome (leaf_value arena.old at) }
    requires one { KeepsBut IsSpan arena.old None }
    requires last { KeepsBut (SpansLast (P.end_place places.now)) arena.old None }
    requires item { P.Knows places.now item.end }
    requires known { EndsKnown (P.Knows places.now) arena.old }
    ensures tree { IsTree arena.new result.root }
    ensures one { KeepsBut IsSpan arena.new None }
    ensures last { KeepsBut (SpansLast (P.end_place places.now)) arena.new None }
    ensures inserts { InsertsLeaf arena.old arena.new result.leaf item (λ xs. insert_after xs at result.leaf) }
{
    // There are fewer items than numbers of nodes, so the tree is far lower than that.
    let _first = arena.first();
    let id = arena.link_after(Some(at), item);
    let Some(block) = arena.parent(at) else {
        unreachable!();
    };
    let (place, _) = child_place(arena, block, at, steps);
    Inserted {
        root: put_leaf(arena, root, block, place + 1, id, item, places, steps),
        leaf: id,
    }
}

// Puts a new item before all others.
pub(crate) fn insert_front<P: Places, G: Ledger>(
    arena: &mut Arena<Item, Headed<Span>>,
    root: NodeId,
    item: Item,
    places: &P,
    steps: &mut Steps<G>,
) -> Inserted
    requires tree { IsTree arena.old root }
    requires spare { height_of arena.old root + 2 ≤ arena.old.spare }
    requires one { KeepsBut IsSpan arena.old None }
    requires last { KeepsBut (SpansLast (P.end_place places.now)) arena.old None }
    requires item { P.Knows places.now item.end }
    requires known { EndsKnown (P.Knows places.now) arena.old }
    ensures tree { IsTree arena.new result.root }
    ensures one { KeepsBut IsSpan arena.new None }
    ensures last { KeepsBut (SpansLast (P.end_place places.now)) arena.new None }
    ensures inserts { InsertsLeaf arena.old arena.new result.leaf item (λ xs. result.leaf ∷ xs) }
{
    let Some(first) = arena.first() else {
        unreachable!();
    };
    let id = arena.link_after(None, item);
    let Some(block) = arena.parent(first) else {
        unreachable!();
    };
    let (place, _) = child_place(arena, block, first, steps);
    Inserted {
        root: put_leaf(arena, root, block, place, id, item, places, steps),
        leaf: id,
    }
}

// Puts the first item of all, under a new root.
pub(crate) fn insert_first(arena: &mut Arena<Item, Headed<Span>>, item: Item) -> Inserted
    requires bare { IsBare arena.old }
    requires spare { 2 ≤ arena.old.spare }
    ensures tree { IsTree arena.new result.root }
    ensures one { KeepsBut IsSpan arena.new None }
    ensures last { (place : ℕ → ℤ) → KeepsBut (SpansLast place) arena.new None }
    ensures inserts { InsertsLeaf arena.old arena.new result.leaf item (λ xs. result.leaf ∷ xs) }
{
    let id = arena.link_after(None, item);
    let top = arena.add_block(Headed {
        height: 1,
        sum: Span {
            start: item.start,
            last: item,
        },
    });
    arena.put_child(top, 0, id);
    Inserted {
        root: top,
        leaf: id,
    }
}
