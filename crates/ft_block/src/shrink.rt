//! How a leaf is taken out of the tree: blocks that have too few children get some of a neighbour, or
//! are joined with it.

ghost use Rattle.std.specs.Prelude.{◌≡◌, ◌≢◌, IsTrue, false, ℕ, ◌+◌, ◌^◌, ◌<◌, ◌≤◌, Some, None, IsSome, IsSomeAnd, IfOk, OnOk, length, slice_get, [], ◌∷◌};
ghost use Rattle.ft_arena.specs.Forest.{IsForest, IsPlace, block_value, kids_of, leaf_value};
ghost use Rattle.ft_arena.specs.Ids.{put_after, without};
ghost use Rattle.ft_block.specs.declared.leaves.View.{View};
ghost use Rattle.ft_shape.specs.Tree.{IsTree, IsApart, SumsBut, IsBare, height_of, length_of, total};
ghost use Rattle.ft_block.specs.Tree.{SumsKeptBut, AreFromFloor, KeepsLengths, MakesExchange, PairFits, by_view, by_size};
ghost use Rattle.ft_shape.specs.Steps.{Shares, ResumsPair, IsPair, TakesLeaf, MovesLeaf};

use crate::grow::{add_after, add_before, nodes_needed};
use crate::leaves::Leaf;
use crate::position::leaf_at;
use crate::refresh::{exchange_up, rebuild};
use crate::summaries::{Exchange, Summary};
use ft_arena::{Arena, NodeId};
use ft_base::{OutOfMemory, Steps};
use ft_shape::{Headed, child_at, child_place, count_of, drop_root, regroup};
use std::alloc::Global;
use std::sync::ledger::Ledger;

// Has two neighbours below a block, which have too many children for one, share them.
fn balance<L: Leaf, G: Ledger>(
    arena: &mut Arena<L, Headed<Summary>>,
    alloc: Global,
    floor: u64,
    up: NodeId,
    front: NodeId,
    rear: NodeId,
    steps: &mut Steps<G>,
) -> Result<(), OutOfMemory>
    requires forest { IsForest arena.old }
    requires pair { IsPair arena.old up front rear }
    requires many { 9 ≤ length (kids_of arena.old front) + length (kids_of arena.old rear) }
    requires floors { AreFromFloor floor arena.old }
    requires sums { (view : View) → KeepsLengths floor view → SumsBut (by_view L.size L.element view) arena.old None }
    requires fits { PairFits L.size L.element floor arena.old front rear }
    ensures shares { OnOk result (Shares arena.old arena.new up front rear) }
    ensures up_kids { OnOk result (kids_of arena.new up ≡ kids_of arena.old up) }
    ensures sums { OnOk result ((view : View) → KeepsLengths floor view → ResumsPair (by_view L.size L.element view) arena.old arena.new up front rear) }
    ensures floors { OnOk result (AreFromFloor floor arena.new) }
{
    let many = count_of(arena, front, steps) + count_of(arena, rear, steps);
    regroup(arena, front, rear, many / 2, steps);
    rebuild(arena, alloc, floor, front, steps)?;
    rebuild(arena, alloc, floor, rear, steps)
}

// Joins two neighbours below a block, which have few enough children for one.
fn merge<L: Leaf, G: Ledger>(
    arena: &mut Arena<L, Headed<Summary>>,
    alloc: Global,
    floor: u64,
    up: NodeId,
    place: usize,
    front: NodeId,
    rear: NodeId,
    steps: &mut Steps<G>,
) -> Result<(), OutOfMemory>
    requires forest { IsForest arena.old }
    requires pair { IsPair arena.old up front rear }
    requires place { slice_get (kids_of arena.old up) place ≡ Some front }
    requires next { slice_get (kids_of arena.old up) (place + 1) ≡ Some rear }
    requires few { length (kids_of arena.old front) + length (kids_of arena.old rear) ≤ 8 }
    requires many { 4 ≤ length (kids_of arena.old front) + length (kids_of arena.old rear) }
    requires floors { AreFromFloor floor arena.old }
    requires sums { (view : View) → KeepsLengths floor view → SumsBut (by_view L.size L.element view) arena.old None }
    requires fits { PairFits L.size L.element floor arena.old front rear }
    ensures shares { OnOk result (Shares arena.old arena.new up front rear) }
    ensures sums { OnOk result ((view : View) → KeepsLengths floor view → ResumsPair (by_view L.size L.element view) arena.old arena.new up front rear) }
    ensures floors { OnOk result (AreFromFloor floor arena.new) }
{
    let many = count_of(arena, front, steps) + count_of(arena, rear, steps);
    regroup(arena, front, rear, many, steps);
    arena.take_child(up, place + 1);
    let _ = arena.drop_block(rear);
    rebuild(arena, alloc, floor, front, steps)
}

// Has two neighbours below a block, of which one has too few children, share them, or joins the two. Tells whether it joined them,
// so that the block above has a child less.
fn share<L: Leaf, G: Ledger>(
    arena: &mut Arena<L, Headed<Summary>>,
    alloc: Global,
    floor: u64,
    up: NodeId,
    place: usize,
    front: NodeId,
    rear: NodeId,
    steps: &mut Steps<G>,
) -> Result<bool, OutOfMemory>
    requires forest { IsForest arena.old }
    requires pair { IsPair arena.old up front rear }
    requires place { slice_get (kids_of arena.old up) place ≡ Some front }
    requires next { slice_get (kids_of arena.old up) (place + 1) ≡ Some rear }
    requires many { 4 ≤ length (kids_of arena.old front) + length (kids_of arena.old rear) }
    requires floors { AreFromFloor floor arena.old }
    requires sums { (view : View) → KeepsLengths floor view → SumsBut (by_view L.size L.element view) arena.old None }
    requires fits { PairFits L.size L.element floor arena.old front rear }
    ensures shares { OnOk result (Shares arena.old arena.new up front rear) }
    ensures up_kids { IfOk result (λ joined. joined ≡ false → kids_of arena.new up ≡ kids_of arena.old up) }
    ensures sums { OnOk result ((view : View) → KeepsLengths floor view → ResumsPair (by_view L.size L.element view) arena.old arena.new up front rear) }
    ensures floors { OnOk result (AreFromFloor floor arena.new) }
{
    let many = count_of(arena, front, steps) + count_of(arena, rear, steps);
    if many > 8 {
        balance(arena, alloc, floor, up, front, rear, steps)?;
        return Ok(false);
    }
    merge(arena, alloc, floor, up, place, front, rear, steps)?;
    Ok(true)
}

// From a block up: while one has too few children, it gets some of a neighbour, or is joined with it.
// Tells the root.
fn fill_up<L: Leaf, G: Ledger>(
    arena: &mut Arena<L, Headed<Summary>>,
    alloc: Global,
    floor: u64,
    root: NodeId,
    block: NodeId,
    _id: NodeId,
    steps: &mut Steps<G>,
) -> Result<NodeId, OutOfMemory>
    requires apart { IsApart arena.old root _id (Some block) }
    requires block { IsSome (block_value arena.old block) }
    requires sums { SumsKeptBut L.size L.element floor arena.old None }
    requires floors { AreFromFloor floor arena.old }
    requires fits { total (length_of (by_size L.size) arena.old) arena.old.leaves < 2 ^ 64 }
    ensures apart { IfOk result (λ top. IsApart arena.new top _id None) }
    ensures low { IfOk result (λ top. height_of arena.new top ≤ height_of arena.old root) }
    ensures sums { OnOk result (SumsKeptBut L.size L.element floor arena.new None) }
    ensures floors { OnOk result (AreFromFloor floor arena.new) }
    ensures leaves { OnOk result (arena.new.leaves ≡ arena.old.leaves) }
    ensures leaf_values { OnOk result ((x : ℕ) → leaf_value arena.new x ≡ leaf_value arena.old x) }
{
    let mut block = block;
    'up: while let Some(up) = arena.parent(block) {
        if count_of(arena, block, steps) >= 4 {
            return Ok(root);
        }
        let (place, count) = child_place(arena, up, block, steps);
        if count == 1 {
            return Ok(drop_root(arena, up));
        }
        let at = place.saturating_sub(1);
        let front = child_at(arena, up, at, steps);
        let rear = child_at(arena, up, at + 1, steps);
        let joined = share(arena, alloc, floor, up, at, front, rear, steps)?;
        if !joined {
            return Ok(root);
        }
        block = up;
    }
    Ok(root)
}

// Takes a leaf, which isn't the only one, out of the tree, but not out of the list, where the blocks above owe this exchange
// then. Tells the root.
fn set_apart<L: Leaf, G: Ledger>(
    arena: &mut Arena<L, Headed<Summary>>,
    alloc: Global,
    floor: u64,
    root: NodeId,
    id: NodeId,
    exchange: &Exchange,
    steps: &mut Steps<G>,
) -> Result<NodeId, OutOfMemory>
    requires tree { IsTree arena.old root }
    requires sums { SumsKeptBut L.size L.element floor arena.old None }
    requires floors { AreFromFloor floor arena.old }
    requires live { IsSome (leaf_value arena.old id) }
    requires makes { IsSomeAnd (leaf_value arena.old id) (λ v. MakesExchange floor exchange.now (L.element v) (L.size v) (L.element v) 0) }
    requires more { 2 ≤ length arena.old.leaves }
    requires fits { total (length_of (by_size L.size) arena.old) arena.old.leaves < 2 ^ 64 }
    ensures apart { IfOk result (λ top. IsApart arena.new top id None) }
    ensures low { IfOk result (λ top. height_of arena.new top ≤ height_of arena.old root) }
    ensures sums { OnOk result (SumsKeptBut L.size L.element floor arena.new None) }
    ensures floors { OnOk result (AreFromFloor floor arena.new) }
    ensures leaves { OnOk result (arena.new.leaves ≡ arena.old.leaves) }
    ensures leaf_values { OnOk result ((x : ℕ) → leaf_value arena.new x ≡ leaf_value arena.old x) }
{
    let Some(block) = arena.parent(id) else {
        unreachable!();
    };
    let (place, _) = child_place(arena, block, id, steps);
    arena.take_child(block, place);
    exchange_up(
        arena,
        root,
        Some(id),
        Some(block),
        Some(block),
        floor,
        exchange,
    )?;
    fill_up(arena, alloc, floor, root, block, id, steps)
}

// Takes a leaf, which isn't the only one, out of the tree, but not out of the list. Tells the root.
pub(crate) fn detach<L: Leaf, G: Ledger>(
    arena: &mut Arena<L, Headed<Summary>>,
    alloc: Global,
    floor: u64,
    root: NodeId,
    id: NodeId,
    steps: &mut Steps<G>,
) -> Result<NodeId, OutOfMemory>
    requires tree { IsTree arena.old root }
    requires sums { SumsKeptBut L.size L.element floor arena.old None }
    requires floors { AreFromFloor floor arena.old }
    requires live { IsSome (leaf_value arena.old id) }
    requires more { 2 ≤ length arena.old.leaves }
    requires fits { total (length_of (by_size L.size) arena.old) arena.old.leaves < 2 ^ 64 }
    ensures apart { IfOk result (λ top. IsApart arena.new top id None) }
    ensures low { IfOk result (λ top. height_of arena.new top ≤ height_of arena.old root) }
    ensures sums { OnOk result (SumsKeptBut L.size L.element floor arena.new None) }
    ensures floors { OnOk result (AreFromFloor floor arena.new) }
    ensures leaves { OnOk result (arena.new.leaves ≡ arena.old.leaves) }
    ensures leaf_values { OnOk result ((x : ℕ) → leaf_value arena.new x ≡ leaf_value arena.old x) }
{
    let leaf = leaf_at(arena, id, steps);
    let len = leaf.len();
    let e = leaf.element();
    let exchange = Exchange::of(floor, e, len, e, 0)?;
    set_apart(arena, alloc, floor, root, id, &exchange, steps)
}

// Whether the leaf is the only one.
pub(crate) fn is_only<L: Leaf>(arena: &Arena<L, Headed<Summary>>, id: NodeId) -> bool
    requires forest { IsForest arena.now }
    requires live { IsSome (leaf_value arena.now id) }
    ensures only { IsTrue result → arena.now.leaves ≡ id ∷ [] }
    ensures more { result ≡ false → 2 ≤ length arena.now.leaves }
{
    match arena.prev(id) {
        Some(_) => false,
        None => match arena.next(id) {
            Some(_) => false,
            None => true,
        },
    }
}

// Takes the only leaf out, and the root. Tells the leaf's value.
pub(crate) fn take_last<L: Leaf>(
    arena: &mut Arena<L, Headed<Summary>>,
    root: NodeId,
    id: NodeId,
) -> L
    requires tree { IsTree arena.old root }
    requires only { arena.old.leaves ≡ id ∷ [] }
    ensures bare { IsBare arena.new }
    ensures takes { TakesLeaf arena.old arena.new id result }
{
    arena.take_child(root, 0);
    let _ = arena.drop_block(root);
    arena.unlink(id)
}

// Whether the leaf stands directly after that one, or first where none is given.
pub(crate) fn stands_there<L: Leaf>(
    arena: &Arena<L, Headed<Summary>>,
    id: NodeId,
    at: &Option<NodeId>,
) -> bool
    requires forest { IsForest arena.now }
    requires live { IsSome (leaf_value arena.now id) }
    requires at { IsPlace arena.now at.now }
    requires differ { at.now ≢ Some id }
    ensures there { IsTrue result → put_after (without arena.now.leaves id) at.now id ≡ arena.now.leaves }
    ensures more { result ≡ false → 2 ≤ length arena.now.leaves }
{
    match at {
        None => match arena.prev(id) {
            None => true,
            Some(_) => false,
        },
        Some(at) => match arena.prev(id) {
            None => false,
            Some(before) => before == *at,
        },
    }
}

// Moves a leaf, which isn't the only one, directly after another, or to the head. Tells the root.
pub(crate) fn move_at<L: Leaf, G: Ledger>(
    arena: &mut Arena<L, Headed<Summary>>,
    alloc: Global,
    floor: u64,
    root: NodeId,
    id: NodeId,
    at: Option<NodeId>,
    steps: &mut Steps<G>,
) -> Result<NodeId, OutOfMemory>
    requires tree { IsTree arena.old root }
    requires sums { SumsKeptBut L.size L.element floor arena.old None }
    requires floors { AreFromFloor floor arena.old }
    requires live { IsSome (leaf_value arena.old id) }
    requires at { IsPlace arena.old at }
    requires differ { at ≢ Some id }
    requires more { 2 ≤ length arena.old.leaves }
    requires fits { total (length_of (by_size L.size) arena.old) arena.old.leaves < 2 ^ 64 }
    ensures tree { IfOk result (λ top. IsTree arena.new top) }
    ensures sums { OnOk result (SumsKeptBut L.size L.element floor arena.new None) }
    ensures floors { OnOk result (AreFromFloor floor arena.new) }
    ensures moves { OnOk result (MovesLeaf arena.old arena.new id at) }
{
    let needed = nodes_needed(arena, root, steps);
    let root = detach(arena, alloc, floor, root, id, steps)?;
    arena.reserve(needed)?;
    let exchange = Exchange::of_leaf(floor, leaf_at(arena, id, steps))?;
    match at {
        Some(at) => {
            arena.move_after(id, Some(at));
            add_after(arena, alloc, floor, root, at, id, &exchange, steps)
        }
        None => {
            arena.move_after(id, None);
            let Some(first) = arena.next(id) else {
                unreachable!();
            };
            add_before(arena, alloc, floor, root, first, id, &exchange, steps)
        }
    }
}
