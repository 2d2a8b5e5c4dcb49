//! In which runs elements go away.

ghost use Rattle.std.specs.Prelude.{◌≡◌, ◌<◌, ◌≤◌, IfOk, IsTrue, OnOk, cond, nat_eq};
ghost use Rattle.ft_base.specs.Scan.{len};
ghost use Rattle.ft_block.specs.Leaves.{IsFromFloor};
ghost use Rattle.ft_tree_leaves.specs.Elements.{seen_in};
ghost use Rattle.ft_tree_leaves.specs.LeafLists.{elements};
ghost use Rattle.ft_changes.specs.PlacedRuns.{with_gone_behind};
ghost use Rattle.ft_changes.specs.ShownRuns.{gone_runs};
ghost use Rattle.ft_tree_changes.specs.Fronts.{IsFront};

use crate::fronts::{Front, counts_of, front_of, part_within};
use ft_base::OutOfMemory;
use ft_block::LenView;
use ft_changes::TakenRun;
use ft_changes::runs::push_taken;
use ft_tree::{Content, Tree};

/// The maximal runs of elements that `shown` sees among those that `view` sees from the `p`-th, counted from 0, up to
/// before the `q`-th.
///
/// It goes down to the first of them, and from there over the leaves up to the last one. Returns `OutOfMemory` where there is
/// no room for the runs.
pub fn gone_runs<C: Content>(
    tree: &Tree<C>,
    p: u64,
    q: u64,
    view: LenView,
    shown: LenView,
) -> Result<Vec<TakenRun>, OutOfMemory>
    requires usable { IsTrue tree.now.usable }
    requires floor { IsFromFloor tree.now.floor view }
    requires shown_floor { IsFromFloor tree.now.floor shown }
    requires order { p ≤ q }
    requires within { q ≤ len (seen_in view) (elements C.units C.by tree.now.leaves) }
    ensures { IfOk result (λ runs. runs.items ≡ gone_runs (seen_in view) (seen_in shown) p q (elements C.units C.by tree.now.leaves)) }
{
    if p == q {
        return Ok(Vec::new(tree.allocator()));
    }
    let front = front_of(tree, p, view, shown);
    gone_behind(tree, front, p, q, view, shown)
}

// The same, where the walk begins at this leaf.
fn gone_behind<C: Content>(
    tree: &Tree<C>,
    front: Front,
    p: u64,
    q: u64,
    view: LenView,
    shown: LenView,
) -> Result<Vec<TakenRun>, OutOfMemory>
    requires usable { IsTrue tree.now.usable }
    requires front { IsFront C.units C.by tree.now.leaves view shown p front }
    requires order { p < q }
    ensures { IfOk result (λ runs. runs.items ≡ gone_runs (seen_in view) (seen_in shown) p q (elements C.units C.by tree.now.leaves)) }
{
    // What holds of the leaves at any time is read off its contract.
    let _first = tree.first_leaf();
    let mut runs = Vec::new(tree.allocator());
    let mut place = front.seen;
    let mut left = front.shown;
    let mut next = Some(front.leaf);
    while let Some(id) = next {
        if q <= place {
            return Ok(runs);
        }
        let counts = counts_of(tree, id, view, shown);
        let part = part_within(place, counts.both, p, q);
        push_gone(&mut runs, left + part.before, part.count)?;
        left += counts.shown - part.count;
        place += counts.seen;
        next = tree.next_leaf(id);
    }
    Ok(runs)
}

// Adds `count` elements that go away from `place` on, if there are any.
fn push_gone(runs: &mut Vec<TakenRun>, place: u64, count: u64) -> Result<(), OutOfMemory>
    ensures { OnOk result (runs.new.items ≡ cond (nat_eq count 0) runs.old.items (with_gone_behind runs.old.items place count)) }
{
    if count == 0 {
        return Ok(());
    }
    push_taken(runs, place, count)
}
