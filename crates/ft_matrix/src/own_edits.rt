//! What a client's own operations make of a grid.

ghost use Rattle.std.specs.Prelude.{◌≡◌, ℕ, ◌+◌, ◌*◌, ◌<◌, ◌≤◌, ◌^◌, ◌++◌, [], ◌∷◌, All, List, None, IfOk, IsTrue, OnOk, length, map, true};
ghost use Rattle.std.specs.List.{AllByRecursion};
ghost use Rattle.ft_changes.specs.Listeners.{heard};
ghost use Rattle.ft_changes.specs.Told.{told_locals};
ghost use Rattle.ft_cells.specs.CellTables.{cell_at, changed_cell, with_write};
ghost use Rattle.ft_op.specs.declared.operations.ChannelOp.{ChannelOp};
ghost use Rattle.ft_op.specs.declared.operations.GridOp.{GridOp};
ghost use Rattle.ft_op.specs.Document.{Document};
ghost use Rattle.ft_op.specs.Operation.{OnGrid, sub_operations};
ghost use Rattle.ft_op.specs.Stages.{Stage};
ghost use Rattle.ft_op.specs.WellFormed.{IsWellFormedCell, IsWellFormedGrid};
ghost use Rattle.ft_matrix.specs.Sound.{IsSound};
ghost use Rattle.ft_matrix.specs.GridStates.{depth_of, grid_state};
ghost use Rattle.ft_matrix.specs.Conditions.{IsAboveAll};
ghost use Rattle.ft_matrix.specs.Applied.{Holds};
ghost use Rattle.ft_matrix.specs.OwnEdits.{Counts, EditsAll, EditsOne, TakesStages, lengths_after, refusal, seen_units, write_stage};
ghost use Rattle.ft_matrix.specs.Sides.{units_at};
ghost use Rattle.ft_matrix.specs.Units.{shown_units};

use crate::grid::Grid;
use crate::messages::more;
use crate::seen::LOCAL;
use crate::splices::{insert_own_units, remove_own_units, seen_count};
use crate::stages::GridStage;
use ft_arena::NodeId;
use ft_base::moved::push_behind;
use ft_base::{Datum, OutOfMemory, Steps};
use ft_cells::Cells;
use ft_changes::Listener;
use ft_json::ValText;
use ft_op::{CellOp, GridOp, Target};
use ft_perm::Vector;
use std::collections::VecDeque;
use std::sync::ledger::Ledger;

/// The first leaf of a vector; the contract tells how deep a search for a unit goes at most.
pub fn first_leaf(units: &Vector) -> Option<NodeId>
    requires { IsTrue units.now.tree.usable }
    ensures { 4 ^ units.now.tree.depth ≤ length (shown_units units.now) + 1 }
{
    units.tree.first_leaf()
}

/// How many sub-operations the operation has.
pub fn sub_operation_count(op: &GridOp) -> u64
    ensures { result ≡ length (sub_operations (ChannelOp.Grid op.now)) }
{
    match op {
        GridOp::One(_) => 1,
        GridOp::Group(ops) => ops.len() as u64,
    }
}

impl Grid {
    /// Takes an operation as pending stages from `first` on. Returns the length of the list concerned where a sub-operation is
    /// out of range, and then nothing changed. The listener hears how the shown rows and columns change; after a refusal nothing
    /// is said of what it heard.
    ///
    /// Returns `OutOfMemory` where there is no room for it, and then the grid may be used no more.
    pub fn edit_op<G: Ledger>(
        &mut self,
        op: &GridOp,
        first: u64,
        listener: &mut Listener,
        steps: &mut Steps<G>,
    ) -> Result<Option<u64>, OutOfMemory>
        requires sound { IsSound self.old }
        requires formed { IsWellFormedGrid op.now }
        requires some { 1 ≤ first }
        requires above { IsAboveAll first (grid_state self.old 0 true) }
        ensures sound { OnOk result (IsSound self.new) }
        ensures floor { OnOk result (self.new.rows.tree.floor ≡ self.old.rows.tree.floor) }
        ensures edited { (last : ℕ) (doc : Document) (stages : List Stage) → first ≡ last + 1 → Holds last self.old doc stages
            → IfOk result (λ refused. EditsAll last first doc stages (sub_operations (ChannelOp.Grid op.now)) self.old self.new refused) }
        ensures reads { (target : Target) (p count : ℕ) → op.now ≡ GridOp.One (CellOp.SpliceIn target p count)
            → steps.new ≤ steps.old + 9 * (depth_of target (grid_state self.old 0 true) + 1) }
        ensures told { (last : ℕ) (doc : Document) (stages : List Stage) → first ≡ last + 1 → Holds last self.old doc stages
            → IfOk result (λ refused. refused ≡ None → listener.new ≡ heard listener.old (told_locals doc stages first (sub_operations (ChannelOp.Grid op.now)))) }
    {
        match op {
            GridOp::One(op) => {
                self.tell_own(op, listener)?;
                self.edit_one(op, first, steps)
            }
            GridOp::Group(ops) => {
                if let Some(length) = self.refusal(ops.as_slice())? {
                    return Ok(Some(length));
                }
                self.edit_all(ops.as_slice(), first, listener, steps)?;
                Ok(None)
            }
        }
    }

    // The length with which the first of these operations that is out of range is refused.
    //
    // Returns `OutOfMemory` where more rows or columns would be seen than there are numbers.
    fn refusal(&self, ops: &[CellOp]) -> Result<Option<u64>, OutOfMemory>
        requires sound { IsSound self.now }
        requires formed { AllByRecursion IsWellFormedCell ops.now }
        ensures { IfOk result (λ refused. refused ≡ refusal (seen_units self.now.rows) (seen_units self.now.cols) ops.now) }
    {
        let mut rows = seen_count(&self.rows, LOCAL);
        let mut cols = seen_count(&self.cols, LOCAL);
        for op in ops {
            match lengths_after(rows, cols, op)? {
                Ok((r, c)) => {
                    rows = r;
                    cols = c;
                }
                Err(length) => return Ok(Some(length)),
            }
        }
        Ok(None)
    }

    // Takes operations that are within range as pending stages from `first` on. The listener hears of each before the next.
    //
    // Returns `OutOfMemory` where there is no room for them, and then the grid may be used no more.
    fn edit_all<G: Ledger>(
        &mut self,
        ops: &[CellOp],
        first: u64,
        listener: &mut Listener,
        steps: &mut Steps<G>,
    ) -> Result<(), OutOfMemory>
        requires sound { IsSound self.old }
        requires formed { AllByRecursion IsWellFormedCell ops.now }
        requires some { 1 ≤ first }
        requires above { IsAboveAll first (grid_state self.old 0 true) }
        requires within { refusal (seen_units self.old.rows) (seen_units self.old.cols) ops.now ≡ None }
        ensures sound { OnOk result (IsSound self.new) }
        ensures floor { OnOk result (self.new.rows.tree.floor ≡ self.old.rows.tree.floor) }
        ensures edited { (last : ℕ) (doc : Document) (stages : List Stage) → first ≡ last + 1 → Holds last self.old doc stages
            → OnOk result (TakesStages last first self.new doc stages (map (λ op. OnGrid op) ops.now)) }
        ensures told { (last : ℕ) (doc : Document) (stages : List Stage) → first ≡ last + 1 → Holds last self.old doc stages
            → OnOk result (listener.new ≡ heard listener.old (told_locals doc stages first (map (λ op. OnGrid op) ops.now))) }
    {
        let mut stage = first;
        for op in ops {
            self.tell_own(op, listener)?;
            match self.edit_one(op, stage, steps)? {
                None => stage = more(stage, 1)?,
                Some(_) => unreachable!(),
            }
        }
        Ok(())
    }

    // Takes an operation as a pending stage above all others. Returns the length of the list concerned where it is out of range,
    // and then nothing changed.
    //
    // Returns `OutOfMemory` where there is no room for it, and then the grid may be used no more.
    fn edit_one<G: Ledger>(
        &mut self,
        op: &CellOp,
        stage: u64,
        steps: &mut Steps<G>,
    ) -> Result<Option<u64>, OutOfMemory>
        requires sound { IsSound self.old }
        requires formed { IsWellFormedCell op.now }
        requires some { 1 ≤ stage }
        requires above { IsAboveAll stage (grid_state self.old 0 true) }
        ensures sound { OnOk result (IsSound self.new) }
        ensures floor { OnOk result (self.new.rows.tree.floor ≡ self.old.rows.tree.floor) }
        ensures above { IfOk result (λ refused. refused ≡ None → IsAboveAll (stage + 1) (grid_state self.new 0 true)) }
        ensures edited { (last : ℕ) (doc : Document) (stages : List Stage) → stage ≡ last + 1 → Holds last self.old doc stages
            → IfOk result (λ refused. EditsOne last stage doc stages op.now self.old self.new refused) }
        ensures counts { IfOk result (λ refused. Counts op.now self.old self.new refused) }
        ensures reads { (target : Target) (p count : ℕ) → op.now ≡ CellOp.SpliceIn target p count
            → steps.new ≤ steps.old + 9 * (depth_of target (grid_state self.old 0 true) + 1) }
    {
        match op {
            CellOp::SpliceIn { target, pos, count } => {
                self.insert_own(*target, *pos, *count, stage, steps)
            }
            CellOp::SpliceOut { target, pos1, pos2 } => {
                self.remove_own(*target, *pos1, *pos2, stage, steps)
            }
            CellOp::Set { row, col, value } => self.set_own(*row, *col, value, stage),
        }
    }
}

impl Grid {
    // Puts rows or columns in as a pending stage.
    //
    // Returns `OutOfMemory` where there is no room for it, and then the grid may be used no more.
    fn insert_own<G: Ledger>(
        &mut self,
        target: Target,
        pos: u64,
        count: u64,
        stage: u64,
        steps: &mut Steps<G>,
    ) -> Result<Option<u64>, OutOfMemory>
        requires sound { IsSound self.old }
        requires some { 1 ≤ stage }
        requires above { IsAboveAll stage (grid_state self.old 0 true) }
        ensures sound { OnOk result (IsSound self.new) }
        ensures floor { OnOk result (self.new.rows.tree.floor ≡ self.old.rows.tree.floor) }
        ensures above { IfOk result (λ refused. refused ≡ None → IsAboveAll (stage + 1) (grid_state self.new 0 true)) }
        ensures edited { (last : ℕ) (doc : Document) (stages : List Stage) → stage ≡ last + 1 → Holds last self.old doc stages
            → IfOk result (λ refused. EditsOne last stage doc stages (CellOp.SpliceIn target pos count) self.old self.new refused) }
        ensures counts { IfOk result (λ refused. Counts (CellOp.SpliceIn target pos count) self.old self.new refused) }
        ensures reads { steps.new ≤ steps.old + 9 * ((units_at target self.old).tree.depth + 1) }
    {
        if !insert_own_units(self.units_mut(target), pos, count, stage, steps)? {
            return Ok(Some(seen_count(self.units(target), LOCAL)));
        }
        push_behind(
            &mut self.stages,
            GridStage {
                stage,
                op: CellOp::SpliceIn { target, pos, count },
                row: None,
                col: None,
            },
        )?;
        Ok(None)
    }

    // Marks rows or columns as removed by a pending stage.
    //
    // Returns `OutOfMemory` where there is no room for it, and then the grid may be used no more.
    fn remove_own<G: Ledger>(
        &mut self,
        target: Target,
        pos1: u64,
        pos2: u64,
        stage: u64,
        steps: &mut Steps<G>,
    ) -> Result<Option<u64>, OutOfMemory>
        requires sound { IsSound self.old }
        requires order { pos1 ≤ pos2 }
        requires some { 1 ≤ stage }
        requires above { IsAboveAll stage (grid_state self.old 0 true) }
        ensures sound { OnOk result (IsSound self.new) }
        ensures floor { OnOk result (self.new.rows.tree.floor ≡ self.old.rows.tree.floor) }
        ensures above { IfOk result (λ refused. refused ≡ None → IsAboveAll (stage + 1) (grid_state self.new 0 true)) }
        ensures edited { (last : ℕ) (doc : Document) (stages : List Stage) → stage ≡ last + 1 → Holds last self.old doc stages
            → IfOk result (λ refused. EditsOne last stage doc stages (CellOp.SpliceOut target pos1 pos2) self.old self.new refused) }
        ensures counts { IfOk result (λ refused. Counts (CellOp.SpliceOut target pos1 pos2) self.old self.new refused) }
    {
        if !remove_own_units(self.units_mut(target), pos1, pos2, stage, steps)? {
            return Ok(Some(seen_count(self.units(target), LOCAL)));
        }
        push_behind(
            &mut self.stages,
            GridStage {
                stage,
                op: CellOp::SpliceOut { target, pos1, pos2 },
                row: None,
                col: None,
            },
        )?;
        Ok(None)
    }

    // Writes a value to a cell as a pending stage.
    //
    // Returns `OutOfMemory` where there is no room for it, and then the grid may be used no more.
    fn set_own(
        &mut self,
        i: u64,
        j: u64,
        value: &ValText,
        stage: u64,
    ) -> Result<Option<u64>, OutOfMemory>
        requires sound { IsSound self.old }
        requires some { 1 ≤ stage }
        requires above { IsAboveAll stage (grid_state self.old 0 true) }
        ensures sound { OnOk result (IsSound self.new) }
        ensures floor { OnOk result (self.new.rows.tree.floor ≡ self.old.rows.tree.floor) }
        ensures above { IfOk result (λ refused. refused ≡ None → IsAboveAll (stage + 1) (grid_state self.new 0 true)) }
        ensures edited { (last : ℕ) (doc : Document) (stages : List Stage) → stage ≡ last + 1 → Holds last self.old doc stages
            → IfOk result (λ refused. EditsOne last stage doc stages (CellOp.Set i j value.now) self.old self.new refused) }
        ensures counts { IfOk result (λ refused. Counts (CellOp.Set i j value.now) self.old self.new refused) }
    {
        match self.rows.handle_at(LOCAL, i) {
            None => Ok(Some(seen_count(&self.rows, LOCAL))),
            Some(row) => match self.cols.handle_at(LOCAL, j) {
                None => Ok(Some(seen_count(&self.cols, LOCAL))),
                Some(col) => {
                    write_pending(&mut self.cells, row, col, stage, value)?;
                    push_write_stage(&mut self.stages, stage, i, j, value, row, col)?;
                    Ok(None)
                }
            },
        }
    }
}

// Writes a copy of the value to a cell, on top of its pending writes. The stage is above all that are pending in any cell.
//
// Returns `OutOfMemory` where there is no room for it.
fn write_pending(
    cells: &mut Cells,
    row: u64,
    col: u64,
    stage: u64,
    value: &ValText,
) -> Result<(), OutOfMemory>
    requires { (r c : ℕ) → All (λ write. write.0 < stage) (cell_at cells.old r c).pending }
    ensures { OnOk result ((r c : ℕ) → cell_at cells.new r c ≡ changed_cell row col (with_write stage value.now) (cell_at cells.old) r c) }
{
    let value = value.copy()?;
    cells.set_pending(row, col, stage, value)
}

// Adds the stage of a write of the value at row `i` and column `j` behind the others. These have the handles `row` and `col`.
//
// Returns `OutOfMemory` where there is no room for it.
fn push_write_stage(
    stages: &mut VecDeque<GridStage>,
    stage: u64,
    i: u64,
    j: u64,
    value: &ValText,
    row: u64,
    col: u64,
) -> Result<(), OutOfMemory>
    ensures { OnOk result (stages.new.items ≡ stages.old.items ++ write_stage stage i j value.now row col ∷ []) }
{
    let value = value.copy()?;
    push_behind(
        stages,
        GridStage {
            stage,
            op: CellOp::Set {
                row: i,
                col: j,
                value,
            },
            row: Some(row),
            col: Some(col),
        },
    )
}

// How many rows and columns are seen after an operation where so many were before, or the length of the list concerned where it
// is out of range.
//
// Returns `OutOfMemory` where that would pass 2^64 - 1.
fn lengths_after(rows: u64, cols: u64, op: &CellOp) -> Result<Result<(u64, u64), u64>, OutOfMemory>
    requires { IsWellFormedCell op.now }
    ensures { IfOk result (λ after. after ≡ lengths_after rows cols op.now) }
{
    match op {
        CellOp::SpliceIn { target, pos, count } => match target {
            Target::Rows if *pos <= rows => Ok(Ok((more(rows, *count)?, cols))),
            Target::Rows => Ok(Err(rows)),
            Target::Cols if *pos <= cols => Ok(Ok((rows, more(cols, *count)?))),
            Target::Cols => Ok(Err(cols)),
        },
        CellOp::SpliceOut { target, pos1, pos2 } => Ok(match target {
            Target::Rows if *pos2 <= rows => Ok((rows - (*pos2 - *pos1), cols)),
            Target::Rows => Err(rows),
            Target::Cols if *pos2 <= cols => Ok((rows, cols - (*pos2 - *pos1))),
            Target::Cols => Err(cols),
        }),
        CellOp::Set { row, .. } if *row >= rows => Ok(Err(rows)),
        CellOp::Set { col, .. } if *col >= cols => Ok(Err(cols)),
        CellOp::Set { .. } => Ok(Ok((rows, cols))),
    }
}
