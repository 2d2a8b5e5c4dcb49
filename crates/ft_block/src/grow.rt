//! How a node is put into the tree: beside another of its level, with full blocks split on the way up.

ghost use Rattle.std.specs.Prelude.{◌≡◌, ◌≢◌, ℕ, ◌+◌, ◌-◌, ◌^◌, ◌<◌, ◌≤◌, Some, None, IsSome, IfOk, OnOk, length, insert, ◌∷◌};
ghost use Rattle.ft_arena.specs.Forest.{IsForest, entry, block_value, kids_of, parent_of, leaf_value};
ghost use Rattle.ft_arena.specs.Ids.{times, insert_after};
ghost use Rattle.ft_block.specs.declared.leaves.View.{View};
ghost use Rattle.ft_shape.specs.Tree.{IsTree, IsGrowing, IsBare, height_of, length_of, total, insert_before};
ghost use Rattle.ft_block.specs.Tree.{SumsKeptBut, OwesAsAbove, PairFits, AreFromFloor, IsToAdd, KeepsLengths, MakesExchange, by_view, by_size};
ghost use Rattle.ft_shape.specs.Steps.{SplitsAt, RootsOver, Resums, ResumsBoth, InsertsLeaf};

use crate::leaves::Leaf;
use crate::refresh::{exchange_up, rebuild};
use crate::summaries::{Exchange, Summary};
use ft_arena::{Arena, NodeId};
use ft_base::{OutOfMemory, Steps};
use ft_shape::{Headed, child_place, height_at, move_half, put_in_half};
use std::alloc::Global;
use std::sync::ledger::Ledger;

// Puts a new root over the old one and another node.
fn root_over<L: Leaf, G: Ledger>(
    arena: &mut Arena<L, Headed<Summary>>,
    alloc: Global,
    floor: u64,
    root: NodeId,
    id: NodeId,
    height: u64,
    steps: &mut Steps<G>,
) -> Result<NodeId, OutOfMemory>
    requires forest { IsForest arena.old }
    requires spare { 1 ≤ arena.old.spare }
    requires height { height ≡ height_of arena.old root + 1 }
    requires root { IsSome (entry arena.old root) }
    requires id { IsSome (entry arena.old id) }
    requires root_alone { parent_of arena.old root ≡ None }
    requires id_alone { parent_of arena.old id ≡ None }
    requires differ { id ≢ root }
    requires floors { AreFromFloor floor arena.old }
    requires fits { PairFits L.size L.element floor arena.old root id }
    ensures roots { IfOk result (λ top. RootsOver arena.old arena.new root id top) }
    ensures floors { OnOk result (AreFromFloor floor arena.new) }
    ensures sums { IfOk result (λ top. (view : View) → KeepsLengths floor view → Resums (by_view L.size L.element view) arena.old arena.new top) }
{
    let top = arena.add_block(Headed {
        height,
        sum: Summary::new(alloc, floor),
    });
    arena.put_child(top, 0, root);
    arena.put_child(top, 1, id);
    rebuild(arena, alloc, floor, top, steps)?;
    Ok(top)
}

// Splits a full block, and puts a node at this place among its children. Tells the new block.
fn split_put<L: Leaf, G: Ledger>(
    arena: &mut Arena<L, Headed<Summary>>,
    alloc: Global,
    floor: u64,
    block: NodeId,
    place: usize,
    id: NodeId,
    steps: &mut Steps<G>,
) -> Result<NodeId, OutOfMemory>
    requires forest { IsForest arena.old }
    requires spare { 1 ≤ arena.old.spare }
    requires block { IsSome (block_value arena.old block) }
    requires place { place ≤ 8 }
    requires full { length (kids_of arena.old block) ≡ 8 }
    requires id { IsSome (entry arena.old id) }
    requires alone { parent_of arena.old id ≡ None }
    requires apart { times (kids_of arena.old block) block ≡ 0 }
    requires differ { id ≢ block }
    requires floors { AreFromFloor floor arena.old }
    requires fits { (view : View) → KeepsLengths floor view → total (length_of (by_view L.size L.element view) arena.old) (insert (kids_of arena.old block) place id) < 2 ^ 64 }
    ensures splits { IfOk result (λ rear. SplitsAt arena.old arena.new block place id rear) }
    ensures floors { OnOk result (AreFromFloor floor arena.new) }
    ensures sums { IfOk result (λ rear. (view : View) → KeepsLengths floor view → ResumsBoth (by_view L.size L.element view) arena.old arena.new block rear) }
{
    let height = height_at(arena, block, steps);
    let rear = arena.add_block(Headed {
        height,
        sum: Summary::new(alloc, floor),
    });
    move_half(arena, block, rear);
    put_in_half(arena, block, rear, place, id);
    rebuild(arena, alloc, floor, block, steps)?;
    rebuild(arena, alloc, floor, rear, steps)?;
    Ok(rear)
}

// Puts a node into the tree, directly after a node of its level. Tells the root, and a block among
// whose children it stands now, but whose kept lengths are those of before, if there is one.
pub(crate) fn grow<L: Leaf, G: Ledger>(
    arena: &mut Arena<L, Headed<Summary>>,
    alloc: Global,
    floor: u64,
    root: NodeId,
    at: NodeId,
    id: NodeId,
    steps: &mut Steps<G>,
) -> Result<(NodeId, Option<NodeId>), OutOfMemory>
    requires growing { IsGrowing arena.old root at id (λ xs. insert_after xs at id) }
    requires sums { SumsKeptBut L.size L.element floor arena.old (parent_of arena.old at) }
    requires floors { AreFromFloor floor arena.old }
    requires spare { height_of arena.old root - height_of arena.old at + 1 ≤ arena.old.spare }
    requires fits { total (length_of (by_size L.size) arena.old) arena.old.leaves < 2 ^ 64 }
    requires tall { height_of arena.old root + 1 < 2 ^ 64 }
    ensures tree { IfOk result (λ r. IsTree arena.new r.0) }
    ensures stale { IfOk result (λ r. (b : ℕ) → r.1 ≡ Some b → IsSome (block_value arena.new b)) }
    ensures sums { IfOk result (λ r. SumsKeptBut L.size L.element floor arena.new r.1) }
    ensures owes { IfOk result (λ r. OwesAsAbove L.size L.element floor arena.old at (λ xs. insert_after xs at id) arena.new r.1) }
    ensures floors { OnOk result (AreFromFloor floor arena.new) }
    ensures leaves { OnOk result (arena.new.leaves ≡ arena.old.leaves) }
    ensures leaf_values { OnOk result ((x : ℕ) → leaf_value arena.new x ≡ leaf_value arena.old x) }
{
    let mut at = at;
    let mut id = id;
    'up: while let Some(block) = arena.parent(at) {
        let (place, count) = child_place(arena, block, at, steps);
        if count < 8 {
            arena.put_child(block, place + 1, id);
            return Ok((root, Some(block)));
        }
        id = split_put(arena, alloc, floor, block, place + 1, id, steps)?;
        at = block;
    }
    let height = height_at(arena, root, steps);
    let top = root_over(arena, alloc, floor, root, id, height + 1, steps)?;
    Ok((top, None))
}

// Puts a node into the tree, directly before a leaf. Tells the same.
fn grow_front<L: Leaf, G: Ledger>(
    arena: &mut Arena<L, Headed<Summary>>,
    alloc: Global,
    floor: u64,
    root: NodeId,
    at: NodeId,
    id: NodeId,
    steps: &mut Steps<G>,
) -> Result<(NodeId, Option<NodeId>), OutOfMemory>
    requires growing { IsGrowing arena.old root at id (λ xs. insert_before xs at id) }
    requires sums { SumsKeptBut L.size L.element floor arena.old (parent_of arena.old at) }
    requires floors { AreFromFloor floor arena.old }
    requires apart { at ≢ root }
    requires spare { height_of arena.old root - height_of arena.old at + 1 ≤ arena.old.spare }
    requires fits { total (length_of (by_size L.size) arena.old) arena.old.leaves < 2 ^ 64 }
    requires tall { height_of arena.old root + 1 < 2 ^ 64 }
    ensures tree { IfOk result (λ r. IsTree arena.new r.0) }
    ensures stale { IfOk result (λ r. (b : ℕ) → r.1 ≡ Some b → IsSome (block_value arena.new b)) }
    ensures sums { IfOk result (λ r. SumsKeptBut L.size L.element floor arena.new r.1) }
    ensures owes { IfOk result (λ r. OwesAsAbove L.size L.element floor arena.old at (λ xs. insert_before xs at id) arena.new r.1) }
    ensures floors { OnOk result (AreFromFloor floor arena.new) }
    ensures leaves { OnOk result (arena.new.leaves ≡ arena.old.leaves) }
    ensures leaf_values { OnOk result ((x : ℕ) → leaf_value arena.new x ≡ leaf_value arena.old x) }
{
    let Some(block) = arena.parent(at) else {
        unreachable!();
    };
    let (place, count) = child_place(arena, block, at, steps);
    if count < 8 {
        arena.put_child(block, place, id);
        return Ok((root, Some(block)));
    }
    let rear = split_put(arena, alloc, floor, block, place, id, steps)?;
    grow(arena, alloc, floor, root, block, rear, steps)
}

// Puts a leaf into the tree, directly after another, and has the blocks above keep it. Tells the root.
pub(crate) fn add_after<L: Leaf, G: Ledger>(
    arena: &mut Arena<L, Headed<Summary>>,
    alloc: Global,
    floor: u64,
    root: NodeId,
    at: NodeId,
    id: NodeId,
    exchange: &Exchange,
    steps: &mut Steps<G>,
) -> Result<NodeId, OutOfMemory>
    requires { IsToAdd L.size L.element floor arena.old root at id (λ xs. insert_after xs at id) exchange.now }
    ensures tree { IfOk result (λ top. IsTree arena.new top) }
    ensures sums { OnOk result (SumsKeptBut L.size L.element floor arena.new None) }
    ensures floors { OnOk result (AreFromFloor floor arena.new) }
    ensures leaves { OnOk result (arena.new.leaves ≡ arena.old.leaves) }
    ensures leaf_values { OnOk result ((x : ℕ) → leaf_value arena.new x ≡ leaf_value arena.old x) }
{
    let (top, stale) = grow(arena, alloc, floor, root, at, id, steps)?;
    exchange_up(arena, top, None, None, stale, floor, exchange)?;
    Ok(top)
}

// The same directly before another.
pub(crate) fn add_before<L: Leaf, G: Ledger>(
    arena: &mut Arena<L, Headed<Summary>>,
    alloc: Global,
    floor: u64,
    root: NodeId,
    at: NodeId,
    id: NodeId,
    exchange: &Exchange,
    steps: &mut Steps<G>,
) -> Result<NodeId, OutOfMemory>
    requires { IsToAdd L.size L.element floor arena.old root at id (λ xs. insert_before xs at id) exchange.now }
    ensures tree { IfOk result (λ top. IsTree arena.new top) }
    ensures sums { OnOk result (SumsKeptBut L.size L.element floor arena.new None) }
    ensures floors { OnOk result (AreFromFloor floor arena.new) }
    ensures leaves { OnOk result (arena.new.leaves ≡ arena.old.leaves) }
    ensures leaf_values { OnOk result ((x : ℕ) → leaf_value arena.new x ≡ leaf_value arena.old x) }
{
    let (top, stale) = grow_front(arena, alloc, floor, root, at, id, steps)?;
    exchange_up(arena, top, None, None, stale, floor, exchange)?;
    Ok(top)
}

// How many nodes the tree may need for one more leaf: the leaf, a block on each level, a new root.
pub(crate) fn nodes_needed<L: Leaf, G: Ledger>(
    arena: &Arena<L, Headed<Summary>>,
    root: NodeId,
    steps: &mut Steps<G>,
) -> usize
    requires { IsTree arena.now root }
    ensures { result ≡ height_of arena.now root + 2 }
{
    // There are fewer leaves than numbers of nodes, so the tree is far lower than that.
    let _first = arena.first();
    height_at(arena, root, steps) as usize + 2
}

// Makes room for one more leaf. Tells what it changes of what blocks keep.
fn room_for<L: Leaf, G: Ledger>(
    arena: &mut Arena<L, Headed<Summary>>,
    floor: u64,
    root: NodeId,
    leaf: &L,
    steps: &mut Steps<G>,
) -> Result<Exchange, OutOfMemory>
    requires { IsTree arena.old root }
    ensures kept { arena.new ≡ record arena.old { spare = arena.new.spare } }
    ensures room { OnOk result (height_of arena.old root + 2 ≤ arena.new.spare) }
    ensures tall { OnOk result (height_of arena.old root + 2 < 2 ^ 64) }
    ensures exchange { IfOk result (λ exchange. MakesExchange floor exchange (L.element leaf.now) 0 (L.element leaf.now) (L.size leaf.now)) }
{
    let needed = nodes_needed(arena, root, steps);
    arena.reserve(needed)?;
    Exchange::of_leaf(floor, leaf)
}

// Puts a new leaf directly after another. Tells the root and the new leaf.
pub(crate) fn insert_at<L: Leaf, G: Ledger>(
    arena: &mut Arena<L, Headed<Summary>>,
    alloc: Global,
    floor: u64,
    root: NodeId,
    at: NodeId,
    leaf: L,
    steps: &mut Steps<G>,
) -> Result<(NodeId, NodeId), OutOfMemory>
where
    L: Drop,
    requires tree { IsTree arena.old root }
    requires sums { SumsKeptBut L.size L.element floor arena.old None }
    requires floors { AreFromFloor floor arena.old }
    requires at { IsSome (leaf_value arena.old at) }
    requires fits { total (length_of (by_size L.size) arena.old) arena.old.leaves + L.size leaf < 2 ^ 64 }
    ensures tree { IfOk result (λ r. IsTree arena.new r.0) }
    ensures sums { OnOk result (SumsKeptBut L.size L.element floor arena.new None) }
    ensures floors { OnOk result (AreFromFloor floor arena.new) }
    ensures inserts { IfOk result (λ r. InsertsLeaf arena.old arena.new r.1 leaf (λ xs. insert_after xs at r.1)) }
{
    let exchange = room_for(arena, floor, root, &leaf, steps)?;
    let id = arena.link_after(Some(at), leaf);
    let top = add_after(arena, alloc, floor, root, at, id, &exchange, steps)?;
    Ok((top, id))
}

// Puts a new leaf before all others. Tells the root and the new leaf.
pub(crate) fn insert_front<L: Leaf, G: Ledger>(
    arena: &mut Arena<L, Headed<Summary>>,
    alloc: Global,
    floor: u64,
    root: NodeId,
    leaf: L,
    steps: &mut Steps<G>,
) -> Result<(NodeId, NodeId), OutOfMemory>
where
    L: Drop,
    requires tree { IsTree arena.old root }
    requires sums { SumsKeptBut L.size L.element floor arena.old None }
    requires floors { AreFromFloor floor arena.old }
    requires fits { total (length_of (by_size L.size) arena.old) arena.old.leaves + L.size leaf < 2 ^ 64 }
    ensures tree { IfOk result (λ r. IsTree arena.new r.0) }
    ensures sums { OnOk result (SumsKeptBut L.size L.element floor arena.new None) }
    ensures floors { OnOk result (AreFromFloor floor arena.new) }
    ensures inserts { IfOk result (λ r. InsertsLeaf arena.old arena.new r.1 leaf (λ xs. r.1 ∷ xs)) }
{
    let Some(first) = arena.first() else {
        unreachable!();
    };
    let exchange = room_for(arena, floor, root, &leaf, steps)?;
    let id = arena.link_after(None, leaf);
    let top = add_before(arena, alloc, floor, root, first, id, &exchange, steps)?;
    Ok((top, id))
}

// Puts the first leaf of all, under a new root. Tells the root and the leaf.
pub(crate) fn insert_first<L: Leaf, G: Ledger>(
    arena: &mut Arena<L, Headed<Summary>>,
    alloc: Global,
    floor: u64,
    leaf: L,
    steps: &mut Steps<G>,
) -> Result<(NodeId, NodeId), OutOfMemory>
where
    L: Drop,
    requires bare { IsBare arena.old }
    requires fits { L.size leaf < 2 ^ 64 }
    ensures tree { IfOk result (λ r. IsTree arena.new r.0) }
    ensures sums { OnOk result (SumsKeptBut L.size L.element floor arena.new None) }
    ensures floors { OnOk result (AreFromFloor floor arena.new) }
    ensures inserts { IfOk result (λ r. InsertsLeaf arena.old arena.new r.1 leaf (λ xs. r.1 ∷ xs)) }
{
    arena.reserve(2)?;
    let id = arena.link_after(None, leaf);
    let top = arena.add_block(Headed {
        height: 1,
        sum: Summary::new(alloc, floor),
    });
    arena.put_child(top, 0, id);
    rebuild(arena, alloc, floor, top, steps)?;
    Ok((top, id))
}
