//! Splices: how units come into a vector, and are removed.

ghost use Rattle.std.specs.Prelude.{◌≡◌, ◌+◌, ◌*◌, ◌≤◌, IfOk, IsTrue, OnOk};
ghost use Rattle.ft_base.specs.declared.stamps.Stamp.TheVariants.{Acked, Local};
ghost use Rattle.ft_base.specs.Scan.{len, no_run};
ghost use Rattle.ft_block.specs.declared.leaves.LenView.TheVariants.{At};
ghost use Rattle.ft_block.specs.Leaves.{IsFromFloor, last_stage};
ghost use Rattle.ft_tree_leaves.specs.Elements.{is_pending, seen_in};
ghost use Rattle.ft_matrix.specs.Sound.{IsSoundVector};
ghost use Rattle.ft_matrix.specs.Units.{units_of};
ghost use Rattle.ft_matrix.specs.Splices.{AcksUnits, Inserts, Removes, TakesRun};

use ft_base::{OutOfMemory, Perspective, Steps};
use ft_block::LenView;
use ft_json::GREATEST_COUNT;
use ft_perm::{Handles, Vector};
use ft_props::PropSet;
use ft_tree::TreeFault;
use std::sync::ledger::Ledger;

/// How many units the view sees.
pub fn seen_count(units: &Vector, view: LenView) -> u64
    requires usable { IsTrue units.now.tree.usable }
    requires floor { IsFromFloor units.now.tree.floor view }
    ensures { result ≡ len (seen_in view) (units_of units.now) }
{
    units.tree.length(view)
}

/// So many handles that weren't in use.
///
/// Returns `OutOfMemory` where there is no room for them, or more units would have been made than there are handles.
pub fn fresh_handles(units: &mut Vector, count: u64) -> Result<Handles, OutOfMemory>
    requires sound { IsSoundVector units.old }
    requires some { 1 ≤ count }
    ensures { IfOk result (λ run. TakesRun count run units.old units.new) }
{
    match units.tree.made().checked_add(count) {
        Some(made) if made <= GREATEST_COUNT => units.alloc_run(count),
        _ => Err(OutOfMemory),
    }
}

/// Puts `count` units in under number `seq`, directly after the `p`-th that the perspective sees, but past the run of pending
/// ones there. Returns whether `p` is within the length seen; else nothing changed.
///
/// Returns `OutOfMemory` where there is no room for them, and then the vector may be used no more.
pub fn insert_units<G: Ledger>(
    units: &mut Vector,
    p: u64,
    count: u64,
    seq: u64,
    at: Perspective,
    steps: &mut Steps<G>,
) -> Result<bool, OutOfMemory>
    requires sound { IsSoundVector units.old }
    requires floor { units.old.tree.floor ≤ at.r }
    ensures sound { OnOk result (IsSoundVector units.new) }
    ensures inserts { IfOk result (λ taken. Inserts (At at) is_pending (Acked seq at.c) p count units.old units.new taken) }
{
    if seen_count(units, LenView::At(at)) < p {
        return Ok(false);
    }
    if count == 0 {
        return Ok(true);
    }
    let content = fresh_handles(units, count)?;
    let props = PropSet::new(units.tree.allocator());
    match units.tree.insert_remote(p, content, &props, seq, at, steps) {
        Ok(()) => Ok(true),
        Err(TreeFault::OutOfRange { .. }) => unreachable!(),
        Err(TreeFault::OutOfMemory) => Err(OutOfMemory),
    }
}

/// Puts `count` units in under a pending stage, directly after the `p`-th of the local view. Returns whether `p` is within its
/// length; else nothing changed.
///
/// Returns `OutOfMemory` where there is no room for them, and then the vector may be used no more.
pub fn insert_own_units<G: Ledger>(
    units: &mut Vector,
    p: u64,
    count: u64,
    stage: u64,
    steps: &mut Steps<G>,
) -> Result<bool, OutOfMemory>
    requires sound { IsSoundVector units.old }
    requires some { 1 ≤ stage }
    ensures sound { OnOk result (IsSoundVector units.new) }
    ensures inserts { IfOk result (λ taken. Inserts last_stage no_run (Local stage) p count units.old units.new taken) }
    ensures reads { steps.new ≤ steps.old + 9 * (units.old.tree.depth + 1) }
{
    if seen_count(units, LenView::Stage(u64::MAX)) < p {
        return Ok(false);
    }
    if count == 0 {
        return Ok(true);
    }
    let content = fresh_handles(units, count)?;
    let props = PropSet::new(units.tree.allocator());
    match units.tree.insert_local(p, content, &props, stage, steps) {
        Ok(()) => Ok(true),
        Err(TreeFault::OutOfRange { .. }) => unreachable!(),
        Err(TreeFault::OutOfMemory) => Err(OutOfMemory),
    }
}

/// Gives a removal under number `seq` to the units that the perspective sees from the `p`-th up to before the `q`-th. Returns
/// whether `q` is within the length seen; else nothing changed.
///
/// Returns `OutOfMemory` where there is no room for it, and then the vector may be used no more.
pub fn remove_units<G: Ledger>(
    units: &mut Vector,
    p: u64,
    q: u64,
    seq: u64,
    at: Perspective,
    steps: &mut Steps<G>,
) -> Result<bool, OutOfMemory>
    requires sound { IsSoundVector units.old }
    requires order { p ≤ q }
    requires floor { units.old.tree.floor ≤ at.r }
    ensures sound { OnOk result (IsSoundVector units.new) }
    ensures removes { IfOk result (λ taken. Removes (At at) (Acked seq at.c) p q units.old units.new taken) }
{
    match units.tree.remove_remote(p, q, seq, at, steps) {
        Ok(()) => Ok(true),
        Err(TreeFault::OutOfRange { .. }) => Ok(false),
        Err(TreeFault::OutOfMemory) => Err(OutOfMemory),
    }
}

/// Marks the units that the local view sees from the `p`-th up to before the `q`-th as removed by a pending stage. Returns
/// whether `q` is within its length; else nothing changed.
///
/// Returns `OutOfMemory` where there is no room for it, and then the vector may be used no more.
pub fn remove_own_units<G: Ledger>(
    units: &mut Vector,
    p: u64,
    q: u64,
    stage: u64,
    steps: &mut Steps<G>,
) -> Result<bool, OutOfMemory>
    requires sound { IsSoundVector units.old }
    requires order { p ≤ q }
    ensures sound { OnOk result (IsSoundVector units.new) }
    ensures removes { IfOk result (λ taken. Removes last_stage (Local stage) p q units.old units.new taken) }
{
    match units.tree.remove_local(p, q, stage, steps) {
        Ok(()) => Ok(true),
        Err(TreeFault::OutOfRange { .. }) => Ok(false),
        Err(TreeFault::OutOfMemory) => Err(OutOfMemory),
    }
}

/// Makes a pending stage sequenced under number `seq` by connection `conn`: its units and its marks. No position is searched again.
///
/// Returns `OutOfMemory` where there is no room for it, and then the vector may be used no more.
pub fn ack_units(units: &mut Vector, stage: u64, seq: u64, conn: u32) -> Result<(), OutOfMemory>
    requires sound { IsSoundVector units.old }
    ensures sound { OnOk result (IsSoundVector units.new) }
    ensures acks { OnOk result (AcksUnits stage seq conn units.old units.new) }
{
    units.tree.ack(stage, seq, conn)
}
