//! The calls that are given no counter of steps: each makes one of its own.

ghost use Rattle.std.specs.Prelude.{◌≡◌, ◌≢◌, ◌+◌, ◌^◌, ◌<◌, ◌≤◌, Some, IsSome, IsSomeAnd, IsTrue, IfOk, OnOk, length, nat_lt};
ghost use Rattle.ft_arena.specs.Forest.{IsPlace, leaf_value};
ghost use Rattle.ft_arena.specs.Ids.{put_after};
ghost use Rattle.ft_shape.specs.Tree.{length_of, total, numbers_before};
ghost use Rattle.ft_block.specs.Tree.{by_size, by_view};
ghost use Rattle.ft_shape.specs.Steps.{InsertsLeaf, SplitsLeaf, ChangesLeaf, TakesLeaf, MovesLeaf};
ghost use Rattle.ft_block.specs.declared.leaves.View.TheVariants.{Of};
ghost use Rattle.ft_block.specs.Leaves.{IsFromFloor};
ghost use Rattle.ft_block.specs.Inside.{IsRooted, IsSound};

use crate::change::{put_elements, put_stamps, split_at};
use crate::find::length_at;
use crate::grow::{insert_at, insert_first, insert_front};
use crate::leaves::{Leaf, LenView, kept_view};
use crate::order::is_leaf_before;
use crate::position::{kept_before, leaf_at};
use crate::shrink::{detach, is_only, move_at, stands_there, take_last};
use crate::summaries::{Exchange, Summary};
use ft_arena::{Arena, NodeId};
use ft_base::{Element, OutOfMemory, Steps};
use ft_shape::Headed;
use std::alloc::Global;
use std::sync::ledger::{Blank, Ledger};

// The value of a leaf.
pub(crate) fn leaf_in<'a, L: Leaf, G: Ledger>(
    arena: &'a Arena<L, Headed<Summary>>,
    id: NodeId,
    blank: Blank,
) -> &'a L
    requires name { blank.name ≡ G.name }
    requires parts { blank.parts ≡ G.parts }
    requires one { 0 < blank.parts }
    requires live { IsSome (leaf_value arena.now id) }
    ensures { leaf_value arena.now id ≡ Some result.now }
{
    let mut steps = Steps::<G>::new(blank);
    leaf_at(arena, id, &mut steps)
}

// The length of the leaves before this one in a view.
pub(crate) fn position_in<L: Leaf, G: Ledger>(
    arena: &Arena<L, Headed<Summary>>,
    root: Option<usize>,
    floor: u64,
    leaf: NodeId,
    view: LenView,
    blank: Blank,
) -> u64
    requires name { blank.name ≡ G.name }
    requires parts { blank.parts ≡ G.parts }
    requires one { 0 < blank.parts }
    requires sound { IsSound L.size L.element floor arena.now root }
    requires floor { IsFromFloor floor view }
    requires live { IsSome (leaf_value arena.now leaf) }
    ensures { result ≡ total (length_of (by_view L.size L.element (Of view)) arena.now) (numbers_before arena.now.leaves leaf) }
{
    let mut steps = Steps::<G>::new(blank);
    let Some(root) = root else {
        unreachable!();
    };
    let root = NodeId(root);
    let view = kept_view(view, floor);
    kept_before(arena, root, leaf, floor, view, &mut steps)
}

// Whether the first of two leaves stands before the second.
pub(crate) fn is_before_in<L: Leaf, G: Ledger>(
    arena: &Arena<L, Headed<Summary>>,
    root: Option<usize>,
    first: NodeId,
    second: NodeId,
    blank: Blank,
) -> bool
    requires name { blank.name ≡ G.name }
    requires parts { blank.parts ≡ G.parts }
    requires one { 0 < blank.parts }
    requires rooted { IsRooted arena.now root }
    requires first { IsSome (leaf_value arena.now first) }
    requires second { IsSome (leaf_value arena.now second) }
    ensures { result ≡ nat_lt (length (numbers_before arena.now.leaves first)) (length (numbers_before arena.now.leaves second)) }
{
    let mut steps = Steps::<G>::new(blank);
    let Some(root) = root else {
        unreachable!();
    };
    is_leaf_before(arena, NodeId(root), first, second, &mut steps)
}

// The length of all leaves in a view.
pub(crate) fn length_in<L: Leaf, G: Ledger>(
    arena: &Arena<L, Headed<Summary>>,
    root: Option<usize>,
    floor: u64,
    view: LenView,
    blank: Blank,
) -> u64
    requires name { blank.name ≡ G.name }
    requires parts { blank.parts ≡ G.parts }
    requires one { 0 < blank.parts }
    requires sound { IsSound L.size L.element floor arena.now root }
    requires floor { IsFromFloor floor view }
    ensures { result ≡ total (length_of (by_view L.size L.element (Of view)) arena.now) arena.now.leaves }
{
    let mut steps = Steps::<G>::new(blank);
    let Some(root) = root else {
        return 0;
    };
    let root = NodeId(root);
    let view = kept_view(view, floor);
    length_at(arena.read(root, &mut steps), floor, view)
}

// Puts a new leaf directly after another, or first. Tells the root and the new leaf.
pub(crate) fn insert_in<L: Leaf, G: Ledger>(
    arena: &mut Arena<L, Headed<Summary>>,
    alloc: Global,
    floor: u64,
    root: Option<usize>,
    at: Option<NodeId>,
    leaf: L,
    blank: Blank,
) -> Result<(NodeId, NodeId), OutOfMemory>
where
    L: Drop,
    requires name { blank.name ≡ G.name }
    requires parts { blank.parts ≡ G.parts }
    requires one { 0 < blank.parts }
    requires sound { IsSound L.size L.element floor arena.old root }
    requires at { IsPlace arena.old at }
    requires some { 1 ≤ L.size leaf }
    requires fits { total (length_of (by_size L.size) arena.old) arena.old.leaves + L.size leaf < 2 ^ 64 }
    ensures sound { IfOk result (λ r. IsSound L.size L.element floor arena.new (Some r.0)) }
    ensures inserts { IfOk result (λ r. InsertsLeaf arena.old arena.new r.1 leaf (λ xs. put_after xs at r.1)) }
{
    let mut steps = Steps::<G>::new(blank);
    match root {
        None => insert_first(arena, alloc, floor, leaf, &mut steps),
        Some(root) => match at {
            None => insert_front(arena, alloc, floor, NodeId(root), leaf, &mut steps),
            Some(at) => insert_at(arena, alloc, floor, NodeId(root), at, leaf, &mut steps),
        },
    }
}

// Cuts a leaf in two. Tells the root and the new leaf.
pub(crate) fn split_in<L: Leaf, G: Ledger>(
    arena: &mut Arena<L, Headed<Summary>>,
    alloc: Global,
    floor: u64,
    root: Option<usize>,
    leaf: NodeId,
    at: u64,
    blank: Blank,
) -> Result<(NodeId, NodeId), OutOfMemory>
    requires name { blank.name ≡ G.name }
    requires parts { blank.parts ≡ G.parts }
    requires one { 0 < blank.parts }
    requires sound { IsSound L.size L.element floor arena.old root }
    requires low { 1 ≤ at }
    requires high { IsSomeAnd (leaf_value arena.old leaf) (λ v. at < L.size v) }
    ensures sound { IfOk result (λ r. IsSound L.size L.element floor arena.new (Some r.0)) }
    ensures splits { IfOk result (λ r. SplitsLeaf (λ v. L.front v at) (λ v. L.rear v at) arena.old arena.new leaf r.1) }
{
    let mut steps = Steps::<G>::new(blank);
    match root {
        None => unreachable!(),
        Some(root) => split_at(arena, alloc, floor, NodeId(root), leaf, at, &mut steps),
    }
}

// Replaces a leaf's stamps.
pub(crate) fn set_stamps_in<L: Leaf, G: Ledger>(
    arena: &mut Arena<L, Headed<Summary>>,
    root: Option<usize>,
    floor: u64,
    id: NodeId,
    e: Element,
    blank: Blank,
) -> Result<(), OutOfMemory>
    requires name { blank.name ≡ G.name }
    requires parts { blank.parts ≡ G.parts }
    requires one { 0 < blank.parts }
    requires sound { IsSound L.size L.element floor arena.old root }
    requires live { IsSome (leaf_value arena.old id) }
    ensures sound { OnOk result (IsSound L.size L.element floor arena.new root) }
    ensures changes { OnOk result (ChangesLeaf (λ v. L.with_element v e) arena.old arena.new id) }
{
    let mut steps = Steps::<G>::new(blank);
    let Some(root) = root else {
        unreachable!();
    };
    let leaf = leaf_at(arena, id, &mut steps);
    let len = leaf.len();
    let exchange = Exchange::of(floor, leaf.element(), len, &e, len)?;
    put_stamps(arena, floor, NodeId(root), id, e, &exchange)
}

// Takes a leaf out. Tells the root, if there is a leaf left, and the leaf's value.
pub(crate) fn take_in<L: Leaf, G: Ledger>(
    arena: &mut Arena<L, Headed<Summary>>,
    alloc: Global,
    floor: u64,
    root: Option<usize>,
    id: NodeId,
    blank: Blank,
) -> Result<(Option<usize>, L), OutOfMemory>
    requires name { blank.name ≡ G.name }
    requires parts { blank.parts ≡ G.parts }
    requires one { 0 < blank.parts }
    requires sound { IsSound L.size L.element floor arena.old root }
    requires live { IsSome (leaf_value arena.old id) }
    ensures sound { IfOk result (λ r. IsSound L.size L.element floor arena.new r.0) }
    ensures takes { IfOk result (λ r. TakesLeaf arena.old arena.new id r.1) }
{
    let mut steps = Steps::<G>::new(blank);
    let Some(root) = root else {
        unreachable!();
    };
    let root = NodeId(root);
    if is_only(arena, id) {
        return Ok((None, take_last(arena, root, id)));
    }
    let top = detach(arena, alloc, floor, root, id, &mut steps)?;
    Ok((Some(top.0), arena.unlink(id)))
}

// Adds another leaf's elements at the end of a leaf.
pub(crate) fn join_in<L: Leaf, G: Ledger>(
    arena: &mut Arena<L, Headed<Summary>>,
    root: Option<usize>,
    floor: u64,
    id: NodeId,
    other: L,
    blank: Blank,
) -> Result<(), OutOfMemory>
where
    L: Drop,
    requires name { blank.name ≡ G.name }
    requires parts { blank.parts ≡ G.parts }
    requires one { 0 < blank.parts }
    requires sound { IsSound L.size L.element floor arena.old root }
    requires can { IsSomeAnd (leaf_value arena.old id) (λ v. IsTrue (L.joins v other) × (L.element v ≡ L.element other)) }
    requires fits { total (length_of (by_size L.size) arena.old) arena.old.leaves + L.size other < 2 ^ 64 }
    ensures sound { OnOk result (IsSound L.size L.element floor arena.new root) }
    ensures changes { OnOk result (ChangesLeaf (λ v. L.joined v other) arena.old arena.new id) }
{
    let mut steps = Steps::<G>::new(blank);
    let Some(root) = root else {
        unreachable!();
    };
    // As many elements come as the other leaf has, since both have the same stamps.
    let more = other.len();
    let e = leaf_at(arena, id, &mut steps).element();
    let exchange = Exchange::of(floor, e, 0, e, more)?;
    put_elements(arena, floor, NodeId(root), id, other, &exchange)
}

// Moves a leaf directly after another, or to the head. Tells the root.
pub(crate) fn move_in<L: Leaf, G: Ledger>(
    arena: &mut Arena<L, Headed<Summary>>,
    alloc: Global,
    floor: u64,
    root: Option<usize>,
    id: NodeId,
    at: Option<NodeId>,
    blank: Blank,
) -> Result<Option<usize>, OutOfMemory>
    requires name { blank.name ≡ G.name }
    requires parts { blank.parts ≡ G.parts }
    requires one { 0 < blank.parts }
    requires sound { IsSound L.size L.element floor arena.old root }
    requires live { IsSome (leaf_value arena.old id) }
    requires at { IsPlace arena.old at }
    requires differ { at ≢ Some id }
    ensures sound { IfOk result (λ r. IsSound L.size L.element floor arena.new r) }
    ensures moves { OnOk result (MovesLeaf arena.old arena.new id at) }
{
    let mut steps = Steps::<G>::new(blank);
    match root {
        None => unreachable!(),
        Some(top) => {
            if stands_there(arena, id, &at) {
                return Ok(root);
            }
            let top = move_at(arena, alloc, floor, NodeId(top), id, at, &mut steps)?;
            Ok(Some(top.0))
        }
    }
}
