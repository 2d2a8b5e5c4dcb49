//! How a tree is compacted, leaf by leaf.

ghost use Rattle.std.specs.Prelude.{◌≡◌, ◌≤◌, ◌-◌, ◌++◌, All, None, IfOk, IsTrue, OnErr, OnOk, false, filter, length, not, true};
ghost use Rattle.ft_block.specs.Leaves.{IsPlaceIn};
ghost use Rattle.ft_tree_leaves.specs.Edits.{with_place};
ghost use Rattle.ft_tree_leaves.specs.LeafLists.{elements};
ghost use Rattle.ft_tree_leaves.specs.Places.{seen_before};
ghost use Rattle.ft_tree_leaves.specs.References.{ChangesReferences};
ghost use Rattle.ft_zamboni.specs.Collections.{CollectsAll};
ghost use Rattle.ft_zamboni.specs.Scours.{AreClear, Writes, collected, is_collectable, looked_at, next_sweep, place_among, staying, swept};
ghost use Rattle.ft_zamboni.specs.Sweeps.{Rounds, next_start, start};

use crate::removals::collect;
use crate::sweeps::{Reached, sweep};
use ft_arena::NodeId;
use ft_base::OutOfMemory;
use ft_tree::{Content, Tree};

/// Raises the floor, and looks at `budget` of the leaves, or all if fewer, from the one on at which the sweep is to begin,
/// and then from the head on. Takes out those that were removed at or below the floor, adds their contents to `taken`
/// in this order, and returns how many they were. It may join others of them, two side by side that were inserted at or
/// below the floor and that nobody removed or is changing. The next sweep begins at the first leaf behind those that it
/// looked at, or at the first of all where none follows or it looked at all. With a budget of 0 nothing but the floor
/// changes.
///
/// Returns `OutOfMemory` where there is no room for what is kept, and then the tree may be used no more.
pub fn scour<C: Content + Drop>(
    tree: &mut Tree<C>,
    floor: u64,
    budget: u64,
    taken: &mut Vec<C>,
) -> Result<u64, OutOfMemory>
    requires usable { IsTrue tree.old.usable }
    requires rising { tree.old.floor ≤ floor }
    requires clear { AreClear floor (elements C.units C.by tree.old.leaves) tree.old.refs }
    ensures elements { let gone = swept C.units C.by floor budget tree.old.leaves tree.old.sweep in
        OnOk result (Writes floor (elements C.units C.by tree.new.leaves) (staying gone)) }
    ensures taken { let seen = looked_at budget tree.old.leaves tree.old.sweep in
        OnOk result (taken.new.items ≡ taken.old.items ++ collected floor seen) }
    ensures count { let seen = looked_at budget tree.old.leaves tree.old.sweep in
        IfOk result (λ n. n ≡ length (collected floor seen)) }
    ensures refs { let gone = swept C.units C.by floor budget tree.old.leaves tree.old.sweep in
        OnOk result (ChangesReferences (with_place (place_among gone)) tree.old.refs tree.new.refs) }
    ensures sweep { OnOk result (1 ≤ budget → tree.new.sweep ≡ next_sweep budget tree.old.leaves tree.old.sweep) }
    ensures nothing { budget ≡ 0 → tree.new ≡ record tree.old { floor = floor } }
    ensures floor { OnOk result (tree.new.floor ≡ floor) }
    ensures made { OnOk result (tree.new.made ≡ tree.old.made) }
    ensures usable { OnOk result (tree.new.usable ≡ true) }
    ensures err { OnErr result (tree.new.usable ≡ false) }
{
    tree.raise_floor(floor);
    if budget == 0 {
        return Ok(0);
    }
    let before = taken.len();
    sweep_round(tree, budget, taken)?;
    Ok((taken.len() - before) as u64)
}

// Looks at `budget` leaves or all, as `scour` does.
//
// Returns `OutOfMemory` where there is no room for what is kept, and then the tree may be used no more.
fn sweep_round<C: Content + Drop>(
    tree: &mut Tree<C>,
    budget: u64,
    taken: &mut Vec<C>,
) -> Result<(), OutOfMemory>
    requires usable { IsTrue tree.old.usable }
    requires clear { AreClear tree.old.floor (elements C.units C.by tree.old.leaves) tree.old.refs }
    ensures round { OnOk result (Rounds C.units C.by budget tree.old tree.new taken.old.items taken.new.items) }
    ensures err { OnErr result (tree.new.usable ≡ false) }
{
    match sweep_ahead_and_around(tree, budget, taken) {
        Ok(()) => Ok(()),
        Err(e) => {
            tree.spoil();
            Err(e)
        }
    }
}

// Looks at `budget` leaves or all: at those from the place of the sweep on, and then at those from the head on.
fn sweep_ahead_and_around<C: Content + Drop>(
    tree: &mut Tree<C>,
    budget: u64,
    taken: &mut Vec<C>,
) -> Result<(), OutOfMemory>
    requires usable { IsTrue tree.old.usable }
    requires clear { AreClear tree.old.floor (elements C.units C.by tree.old.leaves) tree.old.refs }
    ensures { OnOk result (Rounds C.units C.by budget tree.old tree.new taken.old.items taken.new.items) }
{
    let place = start(tree);
    tree.set_sweep(place);
    let from = tree.sweep();
    let ahead = sweep(tree, from, None, budget, taken)?;
    let first = tree.first_leaf();
    let end = tree.sweep();
    let around = sweep(tree, first, end, ahead.left, taken)?;
    tree.set_sweep(next_start(&ahead, &around));
    Ok(())
}

// The leaf at which the sweep begins: that of its place, or the first.
fn start<C: Content>(tree: &Tree<C>) -> Option<NodeId>
    requires { IsTrue tree.now.usable }
    ensures value { result ≡ start tree.now.leaves tree.now.sweep }
    ensures live { IsPlaceIn tree.now.leaves result }
{
    let first = tree.first_leaf();
    match tree.sweep() {
        Some(id) => Some(id),
        None => first,
    }
}

// Where the next sweep begins: where the way ahead came, if it used up the budget, and else where the way around came.
fn next_start(ahead: &Reached, around: &Reached) -> Option<NodeId>
    ensures { result ≡ next_start ahead.now around.now }
{
    if ahead.left == 0 {
        ahead.next
    } else {
        around.next
    }
}

/// Raises the floor, goes along all leaves in order, and takes out those that were removed at or below it. Adds their
/// contents to `taken`, and returns how many they were. It may join others, as `scour` does.
///
/// It goes from one leaf with a sequenced removal to the next, by a few reads on each level of the tree; the others
/// cost nothing.
///
/// Returns `OutOfMemory` where there is no room for what is kept, and then the tree may be used no more.
pub fn scour_all<C: Content + Drop>(
    tree: &mut Tree<C>,
    floor: u64,
    taken: &mut Vec<C>,
) -> Result<u64, OutOfMemory>
    requires usable { IsTrue tree.old.usable }
    requires rising { tree.old.floor ≤ floor }
    requires clear { AreClear floor (elements C.units C.by tree.old.leaves) tree.old.refs }
    ensures elements { let old = elements C.units C.by tree.old.leaves in
        OnOk result (Writes floor (elements C.units C.by tree.new.leaves) (filter (λ e. not (is_collectable floor e.stamps)) old)) }
    ensures none { OnOk result (All (λ e. is_collectable floor e.stamps ≡ false) (elements C.units C.by tree.new.leaves)) }
    ensures taken { OnOk result (taken.new.items ≡ taken.old.items ++ collected floor tree.old.leaves) }
    ensures count { IfOk result (λ n. n ≡ length (collected floor tree.old.leaves)) }
    ensures refs { let old = elements C.units C.by tree.old.leaves in
        let moves = with_place (λ i. i - seen_before (λ e. is_collectable floor e.stamps) old i) in
        OnOk result (ChangesReferences moves tree.old.refs tree.new.refs) }
    ensures sweep { OnOk result (tree.new.sweep ≡ None) }
    ensures floor { OnOk result (tree.new.floor ≡ floor) }
    ensures made { OnOk result (tree.new.made ≡ tree.old.made) }
    ensures usable { OnOk result (tree.new.usable ≡ true) }
    ensures err { OnErr result (tree.new.usable ≡ false) }
{
    tree.raise_floor(floor);
    let before = taken.len();
    collect_all(tree, taken)?;
    Ok((taken.len() - before) as u64)
}

// Looks at all leaves, as `scour_all` does.
//
// Returns `OutOfMemory` where there is no room for what is kept, and then the tree may be used no more.
fn collect_all<C: Content + Drop>(tree: &mut Tree<C>, taken: &mut Vec<C>) -> Result<(), OutOfMemory>
    requires usable { IsTrue tree.old.usable }
    requires clear { AreClear tree.old.floor (elements C.units C.by tree.old.leaves) tree.old.refs }
    ensures all { OnOk result (CollectsAll C.units C.by tree.old tree.new taken.old.items taken.new.items) }
    ensures err { OnErr result (tree.new.usable ≡ false) }
{
    match collect(tree, taken) {
        Ok(()) => Ok(()),
        Err(e) => {
            tree.spoil();
            Err(e)
        }
    }
}
