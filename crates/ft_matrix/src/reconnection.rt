//! What a table does when its client comes back under a new connection.

ghost use Rattle.std.specs.Prelude.{◌≡◌, ◌+◌, ◌-◌, ◌<◌, ◌≤◌, ◌++◌, IfOk, OnOk, Some, false, map, nat_lt, option_map, slice_get};
ghost use Rattle.std.specs.List.{prefix_len};
ghost use Rattle.ft_op.specs.declared.operations.ChannelOp.{ChannelOp};
ghost use Rattle.ft_op.specs.Operation.{OnGrid};
ghost use Rattle.ft_op.specs.Pieces.{op_of};
ghost use Rattle.ft_rebase.specs.StageLists.{StandSideBySide};
ghost use Rattle.ft_rebase.specs.Pieces.{pieces as unit_pieces};
ghost use Rattle.ft_matrix.specs.Rebuilt.{RebuildsGrid, RebuildsUnits};
ghost use Rattle.ft_matrix.specs.Resubmitted.{DropsStage, Resubmits, ResubmitsOne, SendsAgain, first_insertion, inserted_at, insertion_of, is_due, is_due_at, place_before, put_position, removal_op, removals_of, stage_pieces, write_at};
ghost use Rattle.ft_matrix.specs.declared.stages.GridStage.{GridStage};
ghost use Rattle.ft_matrix.specs.Sound.{IsSound, IsSoundVector, StagesRise};
ghost use Rattle.ft_matrix.specs.Units.{units_of};

use crate::grid::Grid;
use crate::splices::seen_count;
use crate::stages::GridStage;
use ft_base::{Datum, OutOfMemory};
use ft_block::LenView;
use ft_json::ValText;
use ft_op::{CellOp, CellOps, GridOp, Target};
use ft_perm::Vector;
use ft_rebase::{Piece, normalise, regenerate};
use std::alloc::Global;
use std::collections::VecDeque;

// The operation that pieces make: one alone, several as a group, none for none.
fn op_of(mut pieces: Vec<CellOp>) -> Option<GridOp>
    ensures { option_map ChannelOp.Grid result ≡ op_of (map (λ p. OnGrid p) pieces.items) }
{
    if pieces.len() == 1 {
        return pieces.pop().map(GridOp::One);
    }
    if pieces.is_empty() {
        return None;
    }
    Some(GridOp::Group(CellOps::of(pieces)))
}

// Puts the pending units of a vector in afresh. Those of each stage stand side by side in its view.
//
// Returns `OutOfMemory` where there is no room for it, and then the vector may be used no more.
fn rebuild_units(units: &mut Vector) -> Result<(), OutOfMemory>
    requires sound { IsSoundVector units.old }
    requires side { StandSideBySide (λ e. e.stamps) (units_of units.old) }
    ensures sound { OnOk result (IsSoundVector units.new) }
    ensures rebuilds { OnOk result (RebuildsUnits units.old units.new) }
{
    normalise(&mut units.tree)
}

impl Grid {
    /// Puts the pending rows and columns in afresh.
    ///
    /// Returns `OutOfMemory` where there is no room for it, and then the grid may be used no more.
    pub fn normalise(&mut self) -> Result<(), OutOfMemory>
        requires { IsSound self.old }
        ensures { OnOk result (RebuildsGrid self.old self.new) }
    {
        rebuild_units(&mut self.rows)?;
        rebuild_units(&mut self.cols)
    }

    /// The operation as which an edit is sent again whose stages are the `count` ones from `first` on, None where nothing of it is
    /// left. Those of its stages of which nothing is left are gone then.
    pub fn reconnect(
        &mut self,
        alloc: Global,
        first: u64,
        count: u64,
    ) -> Result<Option<GridOp>, OutOfMemory>
        requires { IsSound self.old }
        ensures { IfOk result (λ op. SendsAgain first count self.old self.new op) }
    {
        let pieces = self.resubmit(alloc, first, count)?;
        Ok(op_of(pieces))
    }

    // The pieces of those of the `count` stages from `first` on that are pending here. A stage without a piece is gone then.
    fn resubmit(
        &mut self,
        alloc: Global,
        first: u64,
        count: u64,
    ) -> Result<Vec<CellOp>, OutOfMemory>
        requires { IsSound self.old }
        ensures { IfOk result (λ pieces. Resubmits first count self.old self.new pieces.items) }
    {
        let mut pieces = Vec::new(alloc);
        let mut i = first_from(&self.stages, first);
        while is_due_at(&self.stages, i, first, count) {
            i = self.resubmit_stage(i, &mut pieces)?;
        }
        Ok(pieces)
    }

    // Adds the pieces of the stage at place `i`, and returns the place of the next one. A stage without a piece is gone then, with
    // its cell write.
    fn resubmit_stage(&mut self, i: usize, pieces: &mut Vec<CellOp>) -> Result<usize, OutOfMemory>
        requires rows { IsSoundVector self.old.rows }
        requires cols { IsSoundVector self.old.cols }
        ensures { IfOk result (λ next. (t : GridStage) → slice_get self.old.stages.items i ≡ Some t
            → ResubmitsOne i t self.old self.new pieces.old.items pieces.new.items next) }
    {
        let before = pieces.len();
        let Some(t) = self.stages.get(i) else {
            return Ok(i);
        };
        push_pieces(&self.rows, &self.cols, t, pieces)?;
        if pieces.len() > before {
            return Ok(i + 1);
        }
        self.drop_stage(i);
        Ok(i)
    }

    // Takes the stage at place `i` out, with its cell write.
    fn drop_stage(&mut self, i: usize)
        ensures { (t : GridStage) → slice_get self.old.stages.items i ≡ Some t → DropsStage i t self.old self.new }
    {
        if let Some(t) = self.stages.remove(i) {
            self.cells.drop_pending(t.stage);
        }
    }
}

// The place of the first stage whose number is at least `first`, or how many there are.
fn first_from(stages: &VecDeque<GridStage>, first: u64) -> usize
    requires { StagesRise 0 stages.now.items }
    ensures { result ≡ prefix_len (λ t. nat_lt t.stage first) stages.now.items }
{
    stages.partition_point(|t| t.stage < first)
}

// Whether there is a stage at place `i`, and it is one of the `count` ones from `first` on.
fn is_due_at(stages: &VecDeque<GridStage>, i: usize, first: u64, count: u64) -> bool
    ensures { result ≡ is_due_at first count (slice_get stages.now.items i) }
{
    match stages.get(i) {
        Some(t) => is_due(t.stage, first, count),
        None => false,
    }
}

// Whether the number is one of the `count` ones from `first` on.
fn is_due(stage: u64, first: u64, count: u64) -> bool
    ensures { result ≡ is_due first count stage }
{
    first <= stage && stage - first < count
}

// Adds the pieces of a stage.
fn push_pieces(
    rows: &Vector,
    cols: &Vector,
    t: &GridStage,
    pieces: &mut Vec<CellOp>,
) -> Result<(), OutOfMemory>
    requires rows { IsSoundVector rows.now }
    requires cols { IsSoundVector cols.now }
    ensures { OnOk result (pieces.new.items ≡ pieces.old.items ++ stage_pieces (units_of rows.now) (units_of cols.now) t.now) }
{
    match &t.op {
        CellOp::SpliceIn {
            target: Target::Rows,
            count,
            ..
        } => push_insertion(rows, Target::Rows, t.stage, *count, pieces),
        CellOp::SpliceIn {
            target: Target::Cols,
            count,
            ..
        } => push_insertion(cols, Target::Cols, t.stage, *count, pieces),
        CellOp::SpliceOut {
            target: Target::Rows,
            ..
        } => push_removals(rows, Target::Rows, t.stage, pieces),
        CellOp::SpliceOut {
            target: Target::Cols,
            ..
        } => push_removals(cols, Target::Cols, t.stage, pieces),
        CellOp::Set { value, .. } => push_write(
            value,
            place_before(rows, t.stage, t.row),
            place_before(cols, t.stage, t.col),
            pieces,
        ),
    }
}

// Adds the insertion of `count` units by a stage where they stand now, unless it is one of nothing.
fn push_insertion(
    units: &Vector,
    target: Target,
    stage: u64,
    count: u64,
    pieces: &mut Vec<CellOp>,
) -> Result<(), OutOfMemory>
    requires { IsSoundVector units.now }
    ensures { OnOk result (pieces.new.items ≡ pieces.old.items ++ insertion_of stage target count (units_of units.now)) }
{
    if count == 0 {
        return Ok(());
    }
    let parts = regenerate(&units.tree, stage)?;
    let pos = put_position(units, stage, &parts);
    pieces.push(CellOp::SpliceIn { target, pos, count })?;
    Ok(())
}

// How many units the stage before sees left of those of a stage, of which these are the pieces; or how many it sees, where it has
// none.
fn put_position(units: &Vector, stage: u64, parts: &[Piece]) -> u64
    requires sound { IsSoundVector units.now }
    requires parts { parts.now ≡ unit_pieces stage (units_of units.now) }
    ensures { result ≡ put_position stage (units_of units.now) }
{
    match first_insertion(parts) {
        Some(pos) => pos,
        None => seen_count(units, LenView::Stage(stage.saturating_sub(1))),
    }
}

// Where the first of the pieces inserts, if it does.
fn first_insertion(parts: &[Piece]) -> Option<u64>
    ensures { result ≡ first_insertion parts.now }
{
    match parts.first() {
        Some(part) => inserted_at(part),
        None => None,
    }
}

// Where the piece inserts, if it does.
fn inserted_at(part: &Piece) -> Option<u64>
    ensures { result ≡ inserted_at part.now }
{
    match part {
        Piece::Insert { pos } => Some(*pos),
        Piece::Remove { .. } | Piece::Annotate { .. } => None,
    }
}

// Adds a removal for each run of units that a stage still marks.
fn push_removals(
    units: &Vector,
    target: Target,
    stage: u64,
    pieces: &mut Vec<CellOp>,
) -> Result<(), OutOfMemory>
    requires { IsSoundVector units.now }
    ensures { OnOk result (pieces.new.items ≡ pieces.old.items ++ removals_of stage target (units_of units.now)) }
{
    let parts = regenerate(&units.tree, stage)?;
    for part in &parts {
        push_removal(part, target, pieces)?;
    }
    Ok(())
}

// Adds the removal that a piece is, if it is one.
fn push_removal(part: &Piece, target: Target, pieces: &mut Vec<CellOp>) -> Result<(), OutOfMemory>
    ensures { OnOk result (pieces.new.items ≡ pieces.old.items ++ removal_op target part.now) }
{
    match part {
        Piece::Remove { pos1, pos2 } => {
            pieces.push(CellOp::SpliceOut {
                target,
                pos1: *pos1,
                pos2: *pos2,
            })?;
            Ok(())
        }
        Piece::Insert { .. } | Piece::Annotate { .. } => Ok(()),
    }
}

// Adds a write of the value to the cell at these places, if both are given.
fn push_write(
    value: &ValText,
    row: Option<u64>,
    col: Option<u64>,
    pieces: &mut Vec<CellOp>,
) -> Result<(), OutOfMemory>
    ensures { OnOk result (pieces.new.items ≡ pieces.old.items ++ write_at value.now row col) }
{
    match row {
        None => Ok(()),
        Some(row) => match col {
            None => Ok(()),
            Some(col) => {
                let value = value.copy()?;
                pieces.push(CellOp::Set { row, col, value })?;
                Ok(())
            }
        },
    }
}

// The place at the stage before of the unit of a handle, if both that stage and this one see it.
fn place_before(units: &Vector, stage: u64, handle: Option<u64>) -> Option<u64>
    requires { IsSoundVector units.now }
    ensures { result ≡ place_before stage handle (units_of units.now) }
{
    let handle = handle?;
    units.place_of(LenView::Stage(stage), handle)?;
    units.place_of(LenView::Stage(stage.saturating_sub(1)), handle)
}
