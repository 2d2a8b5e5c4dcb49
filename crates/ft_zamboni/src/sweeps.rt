//! A sweep over a tree, from leaf to leaf.

ghost use Rattle.std.specs.Prelude.{◌≡◌, IfOk, IsTrue, OnOk};
ghost use Rattle.ft_block.specs.Leaves.{IsLeafIn, IsPlaceIn};
ghost use Rattle.ft_tree_blocks.specs.Walks.{from_place};
ghost use Rattle.ft_tree_leaves.specs.LeafLists.{elements};
ghost use Rattle.ft_zamboni.specs.Scours.{AreClear, is_collectable};
ghost use Rattle.ft_zamboni.specs.Sweeps.{Goes, IsFreeIfCollectable, Looks, SweptUpTo, short_of};

use ft_arena::NodeId;
use ft_base::{Element, OutOfMemory, Stamp};
use ft_tree::{Content, Tree};

/// Where a sweep came to: the next leaf to look at, if there is one, and how many more it may look at.
#[derive(Clone, Copy, Drop)]
pub(crate) struct Reached {
    pub next: Option<NodeId>,
    pub left: u64,
}

// Whether the first removal is at or below the floor.
fn is_collectable(e: &Element, floor: u64) -> bool
    ensures { result ≡ is_collectable floor e.now }
{
    match e.dels.as_slice().first() {
        Some(Stamp::Acked { seq, .. }) => *seq <= floor,
        Some(Stamp::Local { .. }) | None => false,
    }
}

// A place, or None where it is that of the end.
fn short_of(place: Option<NodeId>, end: &Option<NodeId>) -> Option<NodeId>
    ensures { result ≡ short_of place end.now }
{
    let Some(id) = place else {
        return None;
    };
    let Some(last) = end else {
        return Some(id);
    };
    if id.0 == last.0 {
        return None;
    }
    Some(id)
}

/// Looks at a leaf: takes it out if it was removed at or below the floor, and else joins it to the leaf that was kept
/// last, if the two may be joined. Returns which leaf was kept last now.
pub(crate) fn look_at<C: Content + Drop>(
    tree: &mut Tree<C>,
    id: NodeId,
    last: Option<NodeId>,
    taken: &mut Vec<C>,
) -> Result<Option<NodeId>, OutOfMemory>
    requires usable { IsTrue tree.old.usable }
    requires live { IsLeafIn tree.old.leaves id }
    requires last { IsPlaceIn tree.old.leaves last }
    requires free { IsFreeIfCollectable C.units C.by tree.old.floor tree.old.leaves id tree.old.refs }
    ensures step { IfOk result (λ k. Looks C.units C.by C.joins C.joined tree.old tree.new id last k taken.old.items taken.new.items) }
    ensures goes { OnOk result (Goes tree.old tree.new) }
{
    if is_collectable(tree.leaf_element(id), tree.floor()) {
        taken.push(tree.take_leaf(id)?)?;
        return Ok(last);
    }
    if let Some(before) = last {
        if tree.join_next(before)? {
            return Ok(last);
        }
    }
    Ok(Some(id))
}

/// Looks at the leaves from a node on, up to before that of the end, and at no more than `budget` of them.
///
/// Returns `OutOfMemory` where there is no room for what is kept, and then the tree may be used no more.
pub(crate) fn sweep<C: Content + Drop>(
    tree: &mut Tree<C>,
    from: Option<NodeId>,
    end: Option<NodeId>,
    budget: u64,
    taken: &mut Vec<C>,
) -> Result<Reached, OutOfMemory>
    requires usable { IsTrue tree.old.usable }
    requires from { IsPlaceIn tree.old.leaves from }
    requires end { IsPlaceIn (from_place tree.old.leaves from) end }
    requires clear { AreClear tree.old.floor (elements C.units C.by tree.old.leaves) tree.old.refs }
    ensures { IfOk result (λ reached. SweptUpTo C.units C.by tree.old tree.new from end budget taken.old.items taken.new.items reached) }
{
    let mut next = short_of(from, &end);
    let mut last = None;
    for i in 0..budget {
        let Some(id) = next else {
            return Ok(Reached {
                next: None,
                left: budget - i,
            });
        };
        // What holds of the leaves at any time is read off its contract.
        let _first = tree.first_leaf();
        next = short_of(tree.next_leaf(id), &end);
        last = look_at(tree, id, last, taken)?;
    }
    Ok(Reached { next, left: 0 })
}
