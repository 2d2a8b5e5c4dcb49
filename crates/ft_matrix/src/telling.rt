//! What a listener hears of operations on rows and columns, before they are made: how the shown ones change.

ghost use Rattle.std.specs.Prelude.{◌≡◌, ◌≤◌, ◌∷◌, [], IfOk, IsTrue, OnOk, cond, nat_eq};
ghost use Rattle.ft_block.specs.Leaves.{IsFromFloor};
ghost use Rattle.ft_changes.specs.declared.changes.ViewChange.TheVariants.{PutUnits};
ghost use Rattle.ft_changes.specs.Listeners.{heard};
ghost use Rattle.ft_op.specs.WellFormed.{IsWellFormedCell};
ghost use Rattle.ft_matrix.specs.Sound.{IsSound};
ghost use Rattle.ft_matrix.specs.Told.{told_insertion, told_of_op, told_of_own, told_removal};
ghost use Rattle.ft_matrix.specs.Units.{units_of};

use crate::grid::Grid;
use crate::seen::LOCAL;
use crate::splices::seen_count;
use ft_base::{OutOfMemory, Perspective};
use ft_block::LenView;
use ft_changes::runs::takes_of_units;
use ft_changes::{Listener, ViewChange, ViewChanges};
use ft_op::{CellOp, Target};
use ft_perm::Vector;
use ft_tree_changes::{gone_runs, place_of_insertion};
use std::alloc::Global;

impl Grid {
    /// Tells what an operation of a message changes; nothing where it is out of range.
    pub fn tell_op(
        &self,
        op: &CellOp,
        at: Perspective,
        listener: &mut Listener,
    ) -> Result<(), OutOfMemory>
        requires sound { IsSound self.now }
        requires formed { IsWellFormedCell op.now }
        requires floor { self.now.rows.tree.floor ≤ at.r }
        ensures { OnOk result (listener.new ≡ heard listener.old (told_of_op at op.now self.now)) }
    {
        if listener.listens() {
            let more = self.told_of_op(op, at)?;
            listener.hear(more)?;
        }
        Ok(())
    }

    // The changes by such an operation.
    fn told_of_op(&self, op: &CellOp, at: Perspective) -> Result<ViewChanges, OutOfMemory>
        requires sound { IsSound self.now }
        requires formed { IsWellFormedCell op.now }
        requires floor { self.now.rows.tree.floor ≤ at.r }
        ensures { IfOk result (λ changes. changes ≡ told_of_op at op.now self.now) }
    {
        match op {
            CellOp::SpliceIn { target, pos, count } => {
                told_insertion(self.units(*target), *target, *pos, *count, at)
            }
            CellOp::SpliceOut { target, pos1, pos2 } => told_removal(
                self.units(*target),
                *target,
                *pos1,
                *pos2,
                LenView::At(at),
            ),
            CellOp::Set { .. } => Ok(self.no_changes()),
        }
    }

    /// Tells what an operation of the client's own changes at its pending stage; nothing where it is a removal that is out
    /// of range.
    pub fn tell_own(&self, op: &CellOp, listener: &mut Listener) -> Result<(), OutOfMemory>
        requires sound { IsSound self.now }
        requires formed { IsWellFormedCell op.now }
        ensures { OnOk result (listener.new ≡ heard listener.old (told_of_own op.now self.now)) }
    {
        if listener.listens() {
            let more = self.told_of_own(op)?;
            listener.hear(more)?;
        }
        Ok(())
    }

    // The changes by such an operation.
    fn told_of_own(&self, op: &CellOp) -> Result<ViewChanges, OutOfMemory>
        requires sound { IsSound self.now }
        requires formed { IsWellFormedCell op.now }
        ensures { IfOk result (λ changes. changes ≡ told_of_own op.now self.now) }
    {
        match op {
            CellOp::SpliceIn { target, pos, count } => {
                puts_units(self.alloc(), *target, *pos, *count)
            }
            CellOp::SpliceOut { target, pos1, pos2 } => {
                told_removal(self.units(*target), *target, *pos1, *pos2, LOCAL)
            }
            CellOp::Set { .. } => Ok(self.no_changes()),
        }
    }

    // Where the rows take their memory.
    fn alloc(&self) -> Global {
        self.rows.tree.allocator()
    }

    // No changes.
    fn no_changes(&self) -> ViewChanges
        ensures { result ≡ [] }
    {
        ViewChanges::new(self.alloc())
    }
}

// The changes by new units after `p` that the perspective sees: none where it doesn't see so many.
fn told_insertion(
    units: &Vector,
    target: Target,
    p: u64,
    count: u64,
    at: Perspective,
) -> Result<ViewChanges, OutOfMemory>
    requires usable { IsTrue units.now.tree.usable }
    requires floor { units.now.tree.floor ≤ at.r }
    ensures { IfOk result (λ changes. changes ≡ told_insertion at target p count (units_of units.now)) }
{
    let view = LenView::At(at);
    let mut changes = ViewChanges::new(units.tree.allocator());
    if p <= seen_count(units, view) && count != 0 {
        let pos = place_of_insertion(&units.tree, p, view, LOCAL);
        changes.push(ViewChange::PutUnits { target, pos, count })?;
    }
    Ok(changes)
}

// The changes by the removal of the units that the view sees from the `p`-th up to before the `q`-th: none where it doesn't
// see so many.
fn told_removal(
    units: &Vector,
    target: Target,
    p: u64,
    q: u64,
    view: LenView,
) -> Result<ViewChanges, OutOfMemory>
    requires usable { IsTrue units.now.tree.usable }
    requires floor { IsFromFloor units.now.tree.floor view }
    requires order { p ≤ q }
    ensures { IfOk result (λ changes. changes ≡ told_removal view target p q (units_of units.now)) }
{
    let alloc = units.tree.allocator();
    if seen_count(units, view) < q {
        return Ok(ViewChanges::new(alloc));
    }
    let runs = gone_runs(&units.tree, p, q, view, LOCAL)?;
    takes_of_units(alloc, target, runs.as_slice())
}

// The changes by new units at a place of the local view.
fn puts_units(
    alloc: Global,
    target: Target,
    pos: u64,
    count: u64,
) -> Result<ViewChanges, OutOfMemory>
    ensures { IfOk result (λ changes. changes ≡ cond (nat_eq count 0) [] (PutUnits target pos count ∷ [])) }
{
    let mut changes = ViewChanges::new(alloc);
    if count != 0 {
        changes.push(ViewChange::PutUnits { target, pos, count })?;
    }
    Ok(changes)
}
