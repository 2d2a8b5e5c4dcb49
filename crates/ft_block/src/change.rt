//! How one leaf is cut in two, or has another value.

ghost use Rattle.std.specs.Prelude.{◌≡◌, ◌+◌, ◌^◌, ◌<◌, ◌≤◌, None, IsSomeAnd, IsTrue, IfOk, OnOk};
ghost use Rattle.ft_arena.specs.Forest.{leaf_value};
ghost use Rattle.ft_shape.specs.Tree.{IsTree, length_of, total};
ghost use Rattle.ft_block.specs.Tree.{SumsKeptBut, AreFromFloor, MakesExchange, by_size};
ghost use Rattle.ft_shape.specs.Steps.{SplitsLeaf, ChangesLeaf};
ghost use Rattle.ft_block.specs.Inside.{IsSound};

use crate::grow::{grow, nodes_needed};
use crate::leaves::Leaf;
use crate::refresh::exchange_up;
use crate::summaries::{Exchange, Summary};
use ft_arena::{Arena, NodeId};
use ft_base::{Element, OutOfMemory, Steps};
use ft_shape::Headed;
use std::alloc::Global;
use std::sync::ledger::Ledger;

// Cuts a leaf in two. Tells the root and the new leaf.
pub(crate) fn split_at<L: Leaf, G: Ledger>(
    arena: &mut Arena<L, Headed<Summary>>,
    alloc: Global,
    floor: u64,
    root: NodeId,
    leaf: NodeId,
    at: u64,
    steps: &mut Steps<G>,
) -> Result<(NodeId, NodeId), OutOfMemory>
    requires tree { IsTree arena.old root }
    requires sums { SumsKeptBut L.size L.element floor arena.old None }
    requires floors { AreFromFloor floor arena.old }
    requires leaf { IsSomeAnd (leaf_value arena.old leaf) (λ v. at < L.size v) }
    requires low { 1 ≤ at }
    requires fits { total (length_of (by_size L.size) arena.old) arena.old.leaves < 2 ^ 64 }
    ensures tree { IfOk result (λ r. IsTree arena.new r.0) }
    ensures sums { OnOk result (SumsKeptBut L.size L.element floor arena.new None) }
    ensures floors { OnOk result (AreFromFloor floor arena.new) }
    ensures splits { IfOk result (λ r. SplitsLeaf (λ v. L.front v at) (λ v. L.rear v at) arena.old arena.new leaf r.1) }
{
    let needed = nodes_needed(arena, root, steps);
    arena.reserve(needed)?;
    let rest = arena.leaf_mut(leaf).split_off(at)?;
    let id = arena.link_after(Some(leaf), rest);
    // The two halves are as long as the leaf was, so no block above owes anything.
    let (top, _) = grow(arena, alloc, floor, root, leaf, id, steps)?;
    Ok((top, id))
}

// Replaces a leaf's stamps, where the blocks above owe this exchange then.
pub(crate) fn put_stamps<L: Leaf>(
    arena: &mut Arena<L, Headed<Summary>>,
    floor: u64,
    root: NodeId,
    id: NodeId,
    e: Element,
    exchange: &Exchange,
) -> Result<(), OutOfMemory>
    requires tree { IsTree arena.old root }
    requires sums { SumsKeptBut L.size L.element floor arena.old None }
    requires floors { AreFromFloor floor arena.old }
    requires makes { IsSomeAnd (leaf_value arena.old id) (λ v. (L.size v < 2 ^ 64) × MakesExchange floor exchange.now (L.element v) (L.size v) e (L.size v)) }
    requires fits { total (length_of (by_size L.size) arena.old) arena.old.leaves < 2 ^ 64 }
    ensures tree { OnOk result (IsTree arena.new root) }
    ensures sums { OnOk result (SumsKeptBut L.size L.element floor arena.new None) }
    ensures floors { OnOk result (AreFromFloor floor arena.new) }
    ensures changes { OnOk result (ChangesLeaf (λ v. L.with_element v e) arena.old arena.new id) }
{
    arena.leaf_mut(id).set_element(e);
    // Where each view sees as many elements as before, no block above owes anything.
    if exchange.is_nothing() {
        return Ok(());
    }
    let stale = arena.parent(id);
    exchange_up(arena, root, None, None, stale, floor, exchange)
}

// Adds another leaf's elements at the end of a leaf, where the blocks above owe this exchange then.
pub(crate) fn put_elements<L: Leaf>(
    arena: &mut Arena<L, Headed<Summary>>,
    floor: u64,
    root: NodeId,
    id: NodeId,
    other: L,
    exchange: &Exchange,
) -> Result<(), OutOfMemory>
where
    L: Drop,
    requires tree { IsTree arena.old root }
    requires sums { SumsKeptBut L.size L.element floor arena.old None }
    requires floors { AreFromFloor floor arena.old }
    requires can { IsSomeAnd (leaf_value arena.old id) (λ v. IsTrue (L.joins v other) × (L.element v ≡ L.element other)) }
    requires makes { IsSomeAnd (leaf_value arena.old id) (λ v. MakesExchange floor exchange.now (L.element v) 0 (L.element v) (L.size other)) }
    requires fits { total (length_of (by_size L.size) arena.old) arena.old.leaves + L.size other < 2 ^ 64 }
    ensures tree { OnOk result (IsTree arena.new root) }
    ensures sums { OnOk result (SumsKeptBut L.size L.element floor arena.new None) }
    ensures floors { OnOk result (AreFromFloor floor arena.new) }
    ensures changes { OnOk result (ChangesLeaf (λ v. L.joined v other) arena.old arena.new id) }
{
    match arena.leaf_mut(id).join_back(other) {
        Ok(()) => {}
        Err(_) => return Err(OutOfMemory),
    }
    let stale = arena.parent(id);
    exchange_up(arena, root, None, None, stale, floor, exchange)
}

// Changes a leaf's value, but not its length and stamps.
pub(crate) fn change_in<L: Leaf>(
    arena: &mut Arena<L, Headed<Summary>>,
    root: Option<usize>,
    floor: u64,
    id: NodeId,
    c: &L::Change,
) -> Result<(), OutOfMemory>
    requires sound { IsSound L.size L.element floor arena.old root }
    requires can { IsSomeAnd (leaf_value arena.old id) (λ v. L.CanChange v c.now) }
    ensures sound { OnOk result (IsSound L.size L.element floor arena.new root) }
    ensures changes { OnOk result (ChangesLeaf (λ v. L.changed v c.now) arena.old arena.new id) }
{
    let _ = (root, floor);
    arena.leaf_mut(id).change(c)
}
