//! What operations of messages make of a grid.

ghost use Rattle.std.specs.Prelude.{◌≡◌, ℕ, ◌+◌, ◌<◌, ◌≤◌, ◌^◌, List, IfOk, OnOk, false, map};
ghost use Rattle.std.specs.List.{AllByRecursion};
ghost use Rattle.ft_changes.specs.Listeners.{heard};
ghost use Rattle.ft_changes.specs.Told.{told_sub_operations};
ghost use Rattle.ft_op.specs.Document.{Document, effects, grid_effect};
ghost use Rattle.ft_op.specs.Operation.{OnGrid, sub_operations};
ghost use Rattle.ft_op.specs.Stages.{Stage};
ghost use Rattle.ft_op.specs.WellFormed.{IsWellFormedCell, IsWellFormedGrid};
ghost use Rattle.ft_op.specs.declared.operations.ChannelOp.{ChannelOp};
ghost use Rattle.ft_matrix.specs.Sound.{IsSound};
ghost use Rattle.ft_matrix.specs.Applied.{Holds, Passes, skips};
ghost use Rattle.ft_matrix.specs.Told.{HasStagesTo};

use crate::grid::Grid;
use crate::splices::{insert_units, remove_units};
use ft_base::{Datum, OutOfMemory, Perspective, Steps};
use ft_block::LenView;
use ft_changes::Listener;
use ft_json::ValText;
use ft_op::{CellOp, GridOp};
use std::sync::ledger::Ledger;

impl Grid {
    /// Applies an operation under number `seq`, and returns how many of its sub-operations were out of range, which changed nothing.
    /// The listener hears how the shown rows and columns change.
    ///
    /// Returns `OutOfMemory` where there is no room for it, and then the grid may be used no more.
    pub fn apply_op<G: Ledger>(
        &mut self,
        op: &GridOp,
        seq: u64,
        at: Perspective,
        listener: &mut Listener,
        steps: &mut Steps<G>,
    ) -> Result<u64, OutOfMemory>
        requires sound { IsSound self.old }
        requires formed { IsWellFormedGrid op.now }
        requires floor { self.old.rows.tree.floor ≤ at.r }
        ensures sound { OnOk result (IsSound self.new) }
        ensures floor { OnOk result (self.new.rows.tree.floor ≡ self.old.rows.tree.floor) }
        ensures applied { (last : ℕ) (doc : Document) (stages : List Stage) → Holds last self.old doc stages
            → IfOk result (λ skipped. Passes last self.new doc (effects doc seq at.c at.r (sub_operations (ChannelOp.Grid op.now))) stages skipped) }
        ensures told { (last : ℕ) (doc : Document) (stages : List Stage) → last < 2 ^ 64 → Holds last self.old doc stages → HasStagesTo last doc
            → OnOk result (listener.new ≡ heard listener.old (told_sub_operations last doc seq at.c at.r (sub_operations (ChannelOp.Grid op.now)))) }
    {
        match op {
            GridOp::One(op) => {
                self.tell_op(op, at, listener)?;
                Ok(skips(self.apply(op, seq, at, steps)?))
            }
            GridOp::Group(ops) => self.apply_all(ops.as_slice(), seq, at, listener, steps),
        }
    }

    /// Applies operations in order under number `seq`, and returns how many were out of range, which changed nothing. The listener
    /// hears of each before the next.
    ///
    /// Returns `OutOfMemory` where there is no room for them, and then the grid may be used no more.
    pub fn apply_all<G: Ledger>(
        &mut self,
        ops: &[CellOp],
        seq: u64,
        at: Perspective,
        listener: &mut Listener,
        steps: &mut Steps<G>,
    ) -> Result<u64, OutOfMemory>
        requires sound { IsSound self.old }
        requires formed { AllByRecursion IsWellFormedCell ops.now }
        requires floor { self.old.rows.tree.floor ≤ at.r }
        ensures sound { OnOk result (IsSound self.new) }
        ensures floor { OnOk result (self.new.rows.tree.floor ≡ self.old.rows.tree.floor) }
        ensures applied { (last : ℕ) (doc : Document) (stages : List Stage) → Holds last self.old doc stages
            → IfOk result (λ skipped. Passes last self.new doc (effects doc seq at.c at.r (map (λ op. OnGrid op) ops.now)) stages skipped) }
        ensures told { (last : ℕ) (doc : Document) (stages : List Stage) → last < 2 ^ 64 → Holds last self.old doc stages → HasStagesTo last doc
            → OnOk result (listener.new ≡ heard listener.old (told_sub_operations last doc seq at.c at.r (map (λ op. OnGrid op) ops.now))) }
    {
        let mut skipped: u64 = 0;
        for op in ops {
            self.tell_op(op, at, listener)?;
            if !self.apply(op, seq, at, steps)? {
                skipped = more(skipped, 1)?;
            }
        }
        Ok(skipped)
    }

    /// Applies an operation under number `seq`. Returns whether it was within range; else nothing changed.
    ///
    /// Returns `OutOfMemory` where there is no room for it, and then the grid may be used no more.
    pub fn apply<G: Ledger>(
        &mut self,
        op: &CellOp,
        seq: u64,
        at: Perspective,
        steps: &mut Steps<G>,
    ) -> Result<bool, OutOfMemory>
        requires sound { IsSound self.old }
        requires formed { IsWellFormedCell op.now }
        requires floor { self.old.rows.tree.floor ≤ at.r }
        ensures sound { OnOk result (IsSound self.new) }
        ensures floor { OnOk result (self.new.rows.tree.floor ≡ self.old.rows.tree.floor) }
        ensures applied { (last : ℕ) (doc : Document) (stages : List Stage) → Holds last self.old doc stages
            → IfOk result (λ taken. Passes last self.new doc (grid_effect doc seq at.c at.r op.now) stages (skips taken)) }
    {
        match op {
            CellOp::SpliceIn { target, pos, count } => {
                if !insert_units(self.units_mut(*target), *pos, *count, seq, at, steps)? {
                    return Ok(false);
                }
                self.count_made(*target, *count)?;
                Ok(true)
            }
            CellOp::SpliceOut { target, pos1, pos2 } => {
                remove_units(self.units_mut(*target), *pos1, *pos2, seq, at, steps)
            }
            CellOp::Set { row, col, value } => self.set(*row, *col, value, at),
        }
    }

    // Writes a value to the cell of the row and the column that the perspective sees there.
    //
    // Returns `OutOfMemory` where there is no room for it, and then the grid may be used no more.
    fn set(
        &mut self,
        row: u64,
        col: u64,
        value: &ValText,
        at: Perspective,
    ) -> Result<bool, OutOfMemory>
        requires sound { IsSound self.old }
        requires floor { self.old.rows.tree.floor ≤ at.r }
        ensures sound { OnOk result (IsSound self.new) }
        ensures floor { OnOk result (self.new.rows.tree.floor ≡ self.old.rows.tree.floor) }
        ensures applied { (last seq : ℕ) (doc : Document) (stages : List Stage) → Holds last self.old doc stages
            → IfOk result (λ taken. Passes last self.new doc (grid_effect doc seq at.c at.r (CellOp.Set row col value.now)) stages (skips taken)) }
    {
        match self.rows.handle_at(LenView::At(at), row) {
            None => Ok(false),
            Some(row) => match self.cols.handle_at(LenView::At(at), col) {
                None => Ok(false),
                Some(col) => {
                    self.cells.set_acked(row, col, value.copy()?)?;
                    Ok(true)
                }
            },
        }
    }
}

// One more is skipped where an operation isn't taken.
fn skips(taken: bool) -> u64
    ensures { result ≡ skips taken }
{
    if taken { 0 } else { 1 }
}

/// The sum.
///
/// Returns `OutOfMemory` where it would pass 2^64 - 1, since no memory holds so many.
pub fn more(n: u64, count: u64) -> Result<u64, OutOfMemory>
    ensures { IfOk result (λ sum. sum ≡ n + count) }
{
    n.checked_add(count).ok_or(OutOfMemory)
}
