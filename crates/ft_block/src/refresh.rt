//! How what blocks keep is made again from their children, or changed on the way up from a leaf.

ghost use Rattle.std.specs.Prelude.{◌≡◌, ℕ, ◌^◌, ◌<◌, ◌≤◌, None, Some, IsSome, IfOk, OnOk};
ghost use Rattle.ft_arena.specs.Forest.{IsForest, entry, block_value, kids_of};
ghost use Rattle.ft_arena.specs.Ids.{times};
ghost use Rattle.ft_block.specs.declared.leaves.View.{View};
ghost use Rattle.ft_shape.specs.Tree.{IsPartTree, length_of, total};
ghost use Rattle.ft_block.specs.Tree.{SumsKeptBut, OwesMade, AreFromFloor, KeepsLengths, by_view, by_size, kept_length};
ghost use Rattle.ft_shape.specs.Steps.{SameShape, Resums};

use crate::leaves::Leaf;
use crate::summaries::{Exchange, Summary, add_node};
use ft_arena::{Arena, Kids, Node, NodeId};
use ft_base::{OutOfMemory, Steps};
use ft_shape::Headed;
use std::alloc::Global;
use std::sync::ledger::Ledger;

// What a block with these children keeps.
fn sum_of<L: Leaf, G: Ledger>(
    arena: &Arena<L, Headed<Summary>>,
    kids: &Kids,
    alloc: Global,
    floor: u64,
    steps: &mut Steps<G>,
) -> Result<Summary, OutOfMemory>
    requires live { (id : ℕ) → 1 ≤ times kids.now id → IsSome (entry arena.now id) }
    requires floors { AreFromFloor floor arena.now }
    requires fits { (view : View) → KeepsLengths floor view → total (length_of (by_view L.size L.element view) arena.now) kids.now < 2 ^ 64 }
    ensures floor { IfOk result (λ sum. sum.table.floor ≡ floor) }
    ensures sum { IfOk result (λ sum. (view : View) → KeepsLengths floor view → kept_length view sum ≡ total (length_of (by_view L.size L.element view) arena.now) kids.now) }
{
    // That they are at most eight is read off its contract.
    let _few = kids.len();
    let mut sum = Summary::new(alloc, floor);
    let mut i = 0;
    while let Some(kid) = kids.get(i) {
        add_node(&mut sum, floor, arena.read(kid, steps))?;
        i += 1;
    }
    Ok(sum)
}

// Makes what a block keeps again from its children.
pub(crate) fn rebuild<L: Leaf, G: Ledger>(
    arena: &mut Arena<L, Headed<Summary>>,
    alloc: Global,
    floor: u64,
    block: NodeId,
    steps: &mut Steps<G>,
) -> Result<(), OutOfMemory>
    requires block { IsSome (block_value arena.old block) }
    requires forest { IsForest arena.old }
    requires apart { times (kids_of arena.old block) block ≡ 0 }
    requires floors { AreFromFloor floor arena.old }
    requires fits { (view : View) → KeepsLengths floor view → total (length_of (by_view L.size L.element view) arena.old) (kids_of arena.old block) < 2 ^ 64 }
    ensures shape { OnOk result (SameShape arena.old arena.new) }
    ensures floors { OnOk result (AreFromFloor floor arena.new) }
    ensures sums { OnOk result ((view : View) → KeepsLengths floor view → Resums (by_view L.size L.element view) arena.old arena.new block) }
{
    let Node::Block { kids, value } = arena.read(block, steps) else {
        unreachable!();
    };
    let height = value.height;
    let sum = sum_of(arena, kids, alloc, floor, steps)?;
    *arena.block_mut(block) = Headed { height, sum };
    Ok(())
}

// From a block up, each owes the exchange: makes it.
pub(crate) fn exchange_up<L: Leaf>(
    arena: &mut Arena<L, Headed<Summary>>,
    _root: NodeId,
    _apart: Option<NodeId>,
    _short: Option<NodeId>,
    stale: Option<NodeId>,
    floor: u64,
    exchange: &Exchange,
) -> Result<(), OutOfMemory>
    requires tree { IsPartTree arena.old _root _apart _short }
    requires fits { total (length_of (by_size L.size) arena.old) arena.old.leaves < 2 ^ 64 }
    requires block { (b : ℕ) → stale ≡ Some b → IsSome (block_value arena.old b) }
    requires floors { AreFromFloor floor arena.old }
    requires sums { SumsKeptBut L.size L.element floor arena.old stale }
    requires owes { OwesMade L.size L.element floor arena.old stale exchange.now }
    ensures shape { OnOk result (SameShape arena.old arena.new) }
    ensures floors { OnOk result (AreFromFloor floor arena.new) }
    ensures sums { OnOk result (SumsKeptBut L.size L.element floor arena.new None) }
{
    let mut stale = stale;
    'up: while let Some(block) = stale {
        arena
            .block_mut(block)
            .sum
            .fold_and_exchange(floor, exchange)?;
        stale = arena.parent(block);
    }
    Ok(())
}
