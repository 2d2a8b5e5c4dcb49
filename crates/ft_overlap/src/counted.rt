//! The calls that are given no counter of steps: each makes one of its own.

ghost use Rattle.std.specs.Prelude.{◌≡◌, ◌≤◌, ℕ, Some, None, IsSome, OnOk};
ghost use Rattle.ft_arena.specs.Forest.{leaf_value};
ghost use Rattle.ft_shape.specs.Tree.{IsTree};
ghost use Rattle.ft_shape.specs.Told.{KeepsBut};
ghost use Rattle.ft_shape.specs.Steps.{TakesLeaf};
ghost use Rattle.ft_overlap.specs.Items.{put_item, IsRising};
ghost use Rattle.ft_overlap.specs.Inside.{IsBlankOf, IsRooted, AddsLeaf, IsSpan, SpansLast, EndsKnown, items_of, room_for};

use crate::grow::{Inserted, insert_at, insert_first, insert_front};
use crate::items::{Item, Places, Span};
use crate::places::place_for;
use crate::shrink::take_at;
use ft_arena::{Arena, NodeId};
use ft_base::{OutOfMemory, Steps};
use ft_shape::{Headed, height_at};
use std::sync::ledger::{Blank, Ledger};

// Makes room for the nodes of one item more.
//
// Returns `OutOfMemory` where there is none.
pub(crate) fn reserve_in<G: Ledger>(
    arena: &mut Arena<Item, Headed<Span>>,
    root: Option<usize>,
    blank: Blank,
) -> Result<(), OutOfMemory>
    requires blank { IsBlankOf G.name G.parts blank.name blank.parts }
    requires rooted { IsRooted arena.old root }
    ensures room { OnOk result (room_for arena.new root ≤ arena.new.spare) }
    ensures kept { arena.new ≡ record arena.old { spare = arena.new.spare } }
{
    let Some(root) = root else {
        return arena.reserve(2);
    };
    let mut steps = Steps::<G>::new(blank);
    // There are fewer items than numbers of nodes, so the tree is far lower than that.
    let _first = arena.first();
    let height = height_at(arena, NodeId(root), &mut steps) as usize;
    arena.reserve(height + 2)
}

// Puts an item, for which there is room, behind those whose start's place isn't above that of its own.
pub(crate) fn put_in<P: Places, G: Ledger>(
    arena: &mut Arena<Item, Headed<Span>>,
    root: Option<usize>,
    item: Item,
    at: &P,
    blank: Blank,
) -> Inserted
    requires blank { IsBlankOf G.name G.parts blank.name blank.parts }
    requires rooted { IsRooted arena.old root }
    requires room { room_for arena.old root ≤ arena.old.spare }
    requires one { KeepsBut IsSpan arena.old None }
    requires last { KeepsBut (SpansLast (P.end_place at.now)) arena.old None }
    requires start { P.Knows at.now item.start }
    requires end { P.Knows at.now item.end }
    requires starts { (id : ℕ) (x : Item) → leaf_value arena.old id ≡ Some x → P.Knows at.now x.start }
    requires known { EndsKnown (P.Knows at.now) arena.old }
    requires rising { IsRising (P.end_place at.now) (items_of arena.old arena.old.leaves) }
    ensures tree { IsTree arena.new result.root }
    ensures one { KeepsBut IsSpan arena.new None }
    ensures last { KeepsBut (SpansLast (P.end_place at.now)) arena.new None }
    ensures leaf { AddsLeaf arena.old arena.new result.leaf item }
    ensures items { items_of arena.new arena.new.leaves ≡ put_item (P.end_place at.now) item (items_of arena.old arena.old.leaves) }
{
    let Some(root) = root else {
        return insert_first(arena, item);
    };
    let root = NodeId(root);
    let mut steps = Steps::<G>::new(blank);
    match place_for(arena, root, &item, at, &mut steps) {
        Some(before) => insert_at(arena, root, before, item, at, &mut steps),
        None => insert_front(arena, root, item, at, &mut steps),
    }
}

// Takes a leaf out. Tells the root, if there is a leaf left, and its item.
pub(crate) fn take_in<P: Places, G: Ledger>(
    arena: &mut Arena<Item, Headed<Span>>,
    root: NodeId,
    id: NodeId,
    at: &P,
    blank: Blank,
) -> (Option<usize>, Item)
    requires blank { IsBlankOf G.name G.parts blank.name blank.parts }
    requires tree { IsTree arena.old root }
    requires live { IsSome (leaf_value arena.old id) }
    requires one { KeepsBut IsSpan arena.old None }
    requires last { KeepsBut (SpansLast (P.end_place at.now)) arena.old None }
    requires known { EndsKnown (P.Knows at.now) arena.old }
    ensures rooted { IsRooted arena.new result.0 }
    ensures one { KeepsBut IsSpan arena.new None }
    ensures last { KeepsBut (SpansLast (P.end_place at.now)) arena.new None }
    ensures takes { TakesLeaf arena.old arena.new id result.1 }
{
    let mut steps = Steps::<G>::new(blank);
    take_at(arena, root, id, at, &mut steps)
}
