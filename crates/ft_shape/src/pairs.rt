//! How two neighbours share their children, and how a root with one child goes.

ghost use Rattle.std.specs.Prelude.{◌≡◌, ◌≢◌, ◌+◌, ◌≤◌, None, IsSome, length};
ghost use Rattle.ft_arena.specs.Forest.{IsForest, block_value, kids_of, parent_of};
ghost use Rattle.ft_arena.specs.Ids.{times};
ghost use Rattle.ft_shape.specs.Steps.{Regroups, DropsRoot};

use crate::children::count_of;
use crate::headed::Headed;
use ft_arena::{Arena, NodeId};
use ft_base::Steps;
use std::sync::ledger::Ledger;

/// Moves children between two neighbours until the front one has `want` of them.
pub fn regroup<L, S, G: Ledger>(
    arena: &mut Arena<L, Headed<S>>,
    front: NodeId,
    rear: NodeId,
    want: usize,
    steps: &mut Steps<G>,
)
    requires forest { IsForest arena.old }
    requires front { IsSome (block_value arena.old front) }
    requires rear { IsSome (block_value arena.old rear) }
    requires front_apart { times (kids_of arena.old rear) front ≡ 0 }
    requires rear_apart { times (kids_of arena.old front) rear ≡ 0 }
    requires front_own { times (kids_of arena.old front) front ≡ 0 }
    requires rear_own { times (kids_of arena.old rear) rear ≡ 0 }
    requires differ { front ≢ rear }
    requires want { want ≤ 8 }
    requires enough { want ≤ length (kids_of arena.old front) + length (kids_of arena.old rear) }
    requires room { length (kids_of arena.old front) + length (kids_of arena.old rear) ≤ want + 8 }
    ensures { Regroups arena.old arena.new front rear want }
{
    let mut count = count_of(arena, front, steps);
    'fill: while count < want {
        let child = arena.take_child(rear, 0);
        arena.put_child(front, count, child);
        count += 1;
    }
    'spill: while count > want {
        count -= 1;
        let child = arena.take_child(front, count);
        arena.put_child(rear, 0, child);
    }
}

/// Takes the root away, whose one child becomes the root.
pub fn drop_root<L, S: Drop>(arena: &mut Arena<L, Headed<S>>, root: NodeId) -> NodeId
    requires block { IsSome (block_value arena.old root) }
    requires top { parent_of arena.old root ≡ None }
    requires forest { IsForest arena.old }
    requires one { length (kids_of arena.old root) ≡ 1 }
    ensures { DropsRoot arena.old arena.new root result }
{
    let top = arena.take_child(root, 0);
    let _ = arena.drop_block(root);
    top
}
