//! Free handles as runs in rising order, of which no two meet.

ghost use Rattle.std.specs.Prelude.{◌≡◌, ℕ, ◌+◌, ◌<◌, ◌≤◌, IfSome, OnOk, OnErr, length, nat_le, position, slice_get, true};
ghost use Rattle.ft_base.specs.Scan.{one_more_if};
ghost use Rattle.ft_perm.specs.Handles.{in_run};
ghost use Rattle.ft_perm.specs.Vectors.{AreApart, begun, joined_at, times_held};

use crate::handles::Handles;
use ft_base::OutOfMemory;
use ft_tree_leaves::Content;

/// The place of the first run of at least `count` handles.
pub fn fitting(free: &[Handles], count: u64) -> Option<usize>
    ensures place { IfSome result (λ i. i < length free.now) }
    ensures fits { IfSome result (λ i. IfSome (slice_get free.now i) (λ run. count ≤ run.count)) }
    ensures first { result ≡ position (λ run. nat_le count run.count) free.now }
{
    free.iter().position(|run| run.count >= count)
}

/// Takes the first `count` handles of the run at place `i`, which has as many.
pub fn take_front(free: &mut Vec<Handles>, i: usize, count: u64) -> Handles
    requires some { 1 ≤ count }
    requires place { i < length free.old.items }
    requires fits { IfSome (slice_get free.old.items i) (λ run. count ≤ run.count) }
    ensures count { result.count ≡ count }
    ensures taken { (h : ℕ) → times_held h free.old.items ≡ times_held h free.new.items + one_more_if (in_run h result) 0 }
    ensures apart { AreApart free.old.items → AreApart free.new.items }
{
    if free[i].count == count {
        return free.remove(i);
    }
    free[i].take_front(count)
}

/// Adds a run in its place, which is found by halves, and joins it with the runs that it meets.
///
/// Returns `OutOfMemory` where there is no room for it, and then the runs are as they were.
pub fn give_back(free: &mut Vec<Handles>, run: Handles) -> Result<(), OutOfMemory>
    requires { AreApart free.old.items }
    ensures ok { OnOk result ((h : ℕ) → times_held h free.new.items ≡ times_held h free.old.items + one_more_if (in_run h run) 0) }
    ensures err { OnErr result (free.new.items ≡ free.old.items) }
    ensures apart { OnOk result (AreApart free.old.items → ((h : ℕ) → in_run h run ≡ true → times_held h free.old.items ≡ 0) → AreApart free.new.items) }
{
    let at = place_for(free, run.first);
    free.insert(at, run)?;
    join_next(free, at);
    if let Some(before) = at.checked_sub(1) {
        join_next(free, before);
    }
    Ok(())
}

// The place of the first run that begins behind `first`, or the end.
fn place_for(free: &[Handles], first: u64) -> usize
    requires { AreApart free.now }
    ensures within { result ≤ length free.now }
    ensures place { result ≡ begun first free.now }
{
    free.partition_point(|run| run.first <= first)
}

// Joins the run at place `i` with the one behind it, where they meet.
fn join_next(free: &mut Vec<Handles>, i: usize)
    ensures held { (h : ℕ) → times_held h free.new.items ≡ times_held h free.old.items }
    ensures joined { free.new.items ≡ joined_at i free.old.items }
{
    if i < free.len() && i + 1 < free.len() && free[i].can_join(&free[i + 1]) {
        let next = free.remove(i + 1);
        free[i].take_in(&next);
    }
}
