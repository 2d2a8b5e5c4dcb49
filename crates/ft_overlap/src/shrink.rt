//! How an item is taken out of the tree: blocks with too few children get some of a neighbour, or are joined
//! with it, on the way up.

ghost use Rattle.std.specs.Prelude.{◌≡◌, ℕ, ◌+◌, ◌≤◌, Some, None, IsSome, IsTrue, length, slice_get, false, [], ◌∷◌};
ghost use Rattle.ft_arena.specs.Forest.{IsForest, block_value, kids_of, leaf_value};
ghost use Rattle.ft_shape.specs.Tree.{IsTree, IsApart, IsBare};
ghost use Rattle.ft_shape.specs.Steps.{Shares, IsPair, TakesLeaf};
ghost use Rattle.ft_shape.specs.Told.{KeepsBut, KeepsButBoth};
ghost use Rattle.ft_overlap.specs.Inside.{IsRooted, IsSpan, SpansLast, EndsKnown};

use crate::items::{Item, Places, Span};
use crate::names::{rename, rename_up};
use ft_arena::{Arena, NodeId};
use ft_base::Steps;
use ft_shape::{Headed, child_at, child_place, count_of, drop_root, regroup};
use std::sync::ledger::Ledger;

// Has two neighbours below a block, which have too many children for one, share them.
fn balance<P: Places, G: Ledger>(
    arena: &mut Arena<Item, Headed<Span>>,
    up: NodeId,
    front: NodeId,
    rear: NodeId,
    at: &P,
    steps: &mut Steps<G>,
)
    requires forest { IsForest arena.old }
    requires pair { IsPair arena.old up front rear }
    requires many { 9 ≤ length (kids_of arena.old front) + length (kids_of arena.old rear) }
    requires known { EndsKnown (P.Knows at.now) arena.old }
    requires one { KeepsButBoth IsSpan arena.old front rear }
    requires last { KeepsButBoth (SpansLast (P.end_place at.now)) arena.old front rear }
    ensures shares { Shares arena.old arena.new up front rear }
    ensures up_kids { kids_of arena.new up ≡ kids_of arena.old up }
    ensures known { EndsKnown (P.Knows at.now) arena.new }
    ensures one { KeepsBut IsSpan arena.new (Some up) }
    ensures last { KeepsBut (SpansLast (P.end_place at.now)) arena.new (Some up) }
{
    let many = count_of(arena, front, steps) + count_of(arena, rear, steps);
    regroup(arena, front, rear, many / 2, steps);
    rename(arena, front, at, steps);
    rename(arena, rear, at, steps);
}

// Joins two neighbours below a block, which have few enough children for one.
fn merge<P: Places, G: Ledger>(
    arena: &mut Arena<Item, Headed<Span>>,
    up: NodeId,
    place: usize,
    front: NodeId,
    rear: NodeId,
    at: &P,
    steps: &mut Steps<G>,
)
    requires forest { IsForest arena.old }
    requires pair { IsPair arena.old up front rear }
    requires place { slice_get (kids_of arena.old up) place ≡ Some front }
    requires next { slice_get (kids_of arena.old up) (place + 1) ≡ Some rear }
    requires few { length (kids_of arena.old front) + length (kids_of arena.old rear) ≤ 8 }
    requires many { 4 ≤ length (kids_of arena.old front) + length (kids_of arena.old rear) }
    requires known { EndsKnown (P.Knows at.now) arena.old }
    requires one { KeepsButBoth IsSpan arena.old front rear }
    requires last { KeepsButBoth (SpansLast (P.end_place at.now)) arena.old front rear }
    ensures shares { Shares arena.old arena.new up front rear }
    ensures known { EndsKnown (P.Knows at.now) arena.new }
    ensures one { KeepsBut IsSpan arena.new (Some up) }
    ensures last { KeepsBut (SpansLast (P.end_place at.now)) arena.new (Some up) }
{
    let many = count_of(arena, front, steps) + count_of(arena, rear, steps);
    regroup(arena, front, rear, many, steps);
    arena.take_child(up, place + 1);
    let _ = arena.drop_block(rear);
    rename(arena, front, at, steps);
}

// From a block up, which may name another item than its children let it: while one has too few children,
// it gets some of a neighbour, or is joined with it. Tells the root, and the block that may name another
// item then.
fn fill_up<P: Places, G: Ledger>(
    arena: &mut Arena<Item, Headed<Span>>,
    root: NodeId,
    block: NodeId,
    _id: NodeId,
    at: &P,
    steps: &mut Steps<G>,
) -> (NodeId, NodeId)
    requires apart { IsApart arena.old root _id (Some block) }
    requires block { IsSome (block_value arena.old block) }
    requires known { EndsKnown (P.Knows at.now) arena.old }
    requires one { KeepsBut IsSpan arena.old (Some block) }
    requires last { KeepsBut (SpansLast (P.end_place at.now)) arena.old (Some block) }
    ensures apart { IsApart arena.new result.0 _id None }
    ensures block { IsSome (block_value arena.new result.1) }
    ensures known { EndsKnown (P.Knows at.now) arena.new }
    ensures one { KeepsBut IsSpan arena.new (Some result.1) }
    ensures last { KeepsBut (SpansLast (P.end_place at.now)) arena.new (Some result.1) }
    ensures leaves { arena.new.leaves ≡ arena.old.leaves }
    ensures leaf_values { (x : ℕ) → leaf_value arena.new x ≡ leaf_value arena.old x }
{
    let mut block = block;
    'up: while let Some(up) = arena.parent(block) {
        if count_of(arena, block, steps) >= 4 {
            return (root, block);
        }
        let (place, count) = child_place(arena, up, block, steps);
        if count == 1 {
            let top = drop_root(arena, up);
            return (top, top);
        }
        let before = place.saturating_sub(1);
        let front = child_at(arena, up, before, steps);
        let rear = child_at(arena, up, before + 1, steps);
        let many = count_of(arena, front, steps) + count_of(arena, rear, steps);
        if many > 8 {
            balance(arena, up, front, rear, at, steps);
            return (root, up);
        }
        merge(arena, up, before, front, rear, at, steps);
        block = up;
    }
    (root, block)
}

// Takes a leaf, which isn't the only one, out of the tree, but not out of the list. Tells the root.
fn detach<P: Places, G: Ledger>(
    arena: &mut Arena<Item, Headed<Span>>,
    root: NodeId,
    id: NodeId,
    at: &P,
    steps: &mut Steps<G>,
) -> NodeId
    requires tree { IsTree arena.old root }
    requires live { IsSome (leaf_value arena.old id) }
    requires more { 2 ≤ length arena.old.leaves }
    requires known { EndsKnown (P.Knows at.now) arena.old }
    requires one { KeepsBut IsSpan arena.old None }
    requires last { KeepsBut (SpansLast (P.end_place at.now)) arena.old None }
    ensures apart { IsApart arena.new result id None }
    ensures one { KeepsBut IsSpan arena.new None }
    ensures last { KeepsBut (SpansLast (P.end_place at.now)) arena.new None }
    ensures leaves { arena.new.leaves ≡ arena.old.leaves }
    ensures leaf_values { (x : ℕ) → leaf_value arena.new x ≡ leaf_value arena.old x }
{
    let Some(block) = arena.parent(id) else {
        unreachable!();
    };
    let (place, _) = child_place(arena, block, id, steps);
    arena.take_child(block, place);
    let (top, stale) = fill_up(arena, root, block, id, at, steps);
    rename_up(arena, top, Some(id), None, Some(stale), at, steps);
    top
}

// Whether the leaf is the only one.
fn is_only(arena: &Arena<Item, Headed<Span>>, id: NodeId) -> bool
    requires forest { IsForest arena.now }
    requires live { IsSome (leaf_value arena.now id) }
    ensures only { IsTrue result → arena.now.leaves ≡ id ∷ [] }
    ensures more { result ≡ false → 2 ≤ length arena.now.leaves }
{
    match arena.prev(id) {
        Some(_) => false,
        None => match arena.next(id) {
            Some(_) => false,
            None => true,
        },
    }
}

// Takes the only leaf out, and the root. Tells its item.
fn take_last(arena: &mut Arena<Item, Headed<Span>>, root: NodeId, id: NodeId) -> Item
    requires tree { IsTree arena.old root }
    requires only { arena.old.leaves ≡ id ∷ [] }
    ensures bare { IsBare arena.new }
    ensures takes { TakesLeaf arena.old arena.new id result }
{
    arena.take_child(root, 0);
    let _ = arena.drop_block(root);
    arena.unlink(id)
}

// Takes a leaf out. Tells the root, if there is a leaf left, and its item.
pub(crate) fn take_at<P: Places, G: Ledger>(
    arena: &mut Arena<Item, Headed<Span>>,
    root: NodeId,
    id: NodeId,
    at: &P,
    steps: &mut Steps<G>,
) -> (Option<usize>, Item)
    requires tree { IsTree arena.old root }
    requires live { IsSome (leaf_value arena.old id) }
    requires known { EndsKnown (P.Knows at.now) arena.old }
    requires one { KeepsBut IsSpan arena.old None }
    requires last { KeepsBut (SpansLast (P.end_place at.now)) arena.old None }
    ensures rooted { IsRooted arena.new result.0 }
    ensures one { KeepsBut IsSpan arena.new None }
    ensures last { KeepsBut (SpansLast (P.end_place at.now)) arena.new None }
    ensures takes { TakesLeaf arena.old arena.new id result.1 }
{
    if is_only(arena, id) {
        return (None, take_last(arena, root, id));
    }
    let top = detach(arena, root, id, at, steps);
    (Some(top.0), arena.unlink(id))
}
