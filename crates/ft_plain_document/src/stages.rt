//! Pending stages and pending edits.

ghost use Rattle.std.specs.Prelude.{◌≡◌, [], ◌∷◌, IfOk, OnOk, map};
ghost use Rattle.ft_op.specs.Operation.{OnGrid, OnIntervals, OnText, sub_operations};
ghost use Rattle.ft_msg.specs.Acknowledgement.{renamed_stage};
ghost use Rattle.ft_plain_document.specs.Renamed.{renaming_of};
ghost use Rattle.ft_plain_document.specs.SubOperations.{sub_operation_of};

use crate::moved::queue_of;
use crate::renamings::Renaming;
use ft_base::moved::push_behind;
use ft_base::{Datum, List, OutOfMemory};
use ft_op::{BaseOp, CellOp, ChannelOp, GridOp, TextOp};
use ft_plain_lists::ElementNames;
use std::alloc::Global;
use std::collections::VecDeque;
use std::marker::Model;

/// One sub-operation of an edit.
#[derive(Drop)]
pub enum SubOp {
    /// On the elements of the text.
    Text(BaseOp),
    /// On its intervals.
    Intervals(TextOp),
    /// On the grid.
    Grid(CellOp),
}

impl SubOp {
    // An equal sub-operation.
    fn copy(&self) -> Result<SubOp, OutOfMemory>
        ensures { IfOk result (λ copy. copy ≡ self.now) }
    {
        match self {
            SubOp::Text(op) => Ok(SubOp::Text(op.copy()?)),
            SubOp::Intervals(op) => Ok(SubOp::Intervals(op.copy()?)),
            SubOp::Grid(op) => Ok(SubOp::Grid(op.copy()?)),
        }
    }
}

/// The sub-operations of an operation, in order.
pub fn sub_operations(alloc: Global, op: &ChannelOp) -> Result<VecDeque<SubOp>, OutOfMemory>
    ensures { IfOk result (λ v. map sub_operation_of v.items ≡ sub_operations op.now) }
{
    match op {
        ChannelOp::Text(TextOp::Group(ops)) => text_group(alloc, ops.as_slice()),
        ChannelOp::Text(TextOp::One(op)) => one_of_text(alloc, op),
        ChannelOp::Text(op) => one_of_intervals(alloc, op),
        ChannelOp::Grid(GridOp::One(op)) => one_of_grid(alloc, op),
        ChannelOp::Grid(GridOp::Group(ops)) => grid_group(alloc, ops.as_slice()),
    }
}

// A sub-operation of the elements of the text alone.
fn one_of_text(alloc: Global, op: &BaseOp) -> Result<VecDeque<SubOp>, OutOfMemory>
    ensures { IfOk result (λ v. map sub_operation_of v.items ≡ OnText op.now ∷ []) }
{
    let op = op.copy()?;
    queue_of(alloc, SubOp::Text(op))
}

// A sub-operation of the intervals alone.
fn one_of_intervals(alloc: Global, op: &TextOp) -> Result<VecDeque<SubOp>, OutOfMemory>
    ensures { IfOk result (λ v. map sub_operation_of v.items ≡ OnIntervals op.now ∷ []) }
{
    let op = op.copy()?;
    queue_of(alloc, SubOp::Intervals(op))
}

// A sub-operation of the grid alone.
fn one_of_grid(alloc: Global, op: &CellOp) -> Result<VecDeque<SubOp>, OutOfMemory>
    ensures { IfOk result (λ v. map sub_operation_of v.items ≡ OnGrid op.now ∷ []) }
{
    let op = op.copy()?;
    queue_of(alloc, SubOp::Grid(op))
}

// The sub-operations of a group of the text.
fn text_group(alloc: Global, group: &[BaseOp]) -> Result<VecDeque<SubOp>, OutOfMemory>
    ensures { IfOk result (λ v. map sub_operation_of v.items ≡ map (λ op. OnText op) group.now) }
{
    let mut ops = VecDeque::new(alloc);
    for op in group {
        push_behind(&mut ops, SubOp::Text(op.copy()?))?;
    }
    Ok(ops)
}

// The sub-operations of a group of the grid.
fn grid_group(alloc: Global, group: &[CellOp]) -> Result<VecDeque<SubOp>, OutOfMemory>
    ensures { IfOk result (λ v. map sub_operation_of v.items ≡ map (λ op. OnGrid op) group.now) }
{
    let mut ops = VecDeque::new(alloc);
    for op in group {
        push_behind(&mut ops, SubOp::Grid(op.copy()?))?;
    }
    Ok(ops)
}

/// A pending stage: its number, its sub-operation, and the elements that this names.
#[derive(Drop)]
pub struct PlainStage {
    stage: u64,
    sub_operation: SubOp,
    names: ElementNames,
}

impl Model for PlainStage {
    ghost use Rattle.ft_op.specs.Stages.{Stage};
    ghost use Rattle.ft_plain_document.specs.SubOperations.{sub_operation_of};

    ghost Value = { Stage };

    ghost view = { λ a. record { stage = a.stage; sub_operation = sub_operation_of a.sub_operation; names = a.names } };
}

impl PlainStage {
    /// The stage with these parts.
    pub(crate) fn new(stage: u64, sub_operation: SubOp, names: ElementNames) -> PlainStage
        ensures { result ≡ record { stage = stage; sub_operation = sub_operation_of sub_operation; names = names } }
    {
        PlainStage {
            stage,
            sub_operation,
            names,
        }
    }

    /// An equal stage, but for the elements that it names.
    pub fn copy_with(&self, names: ElementNames) -> Result<PlainStage, OutOfMemory>
        ensures { IfOk result (λ copy. copy ≡ record self.now { names = names }) }
    {
        Ok(PlainStage {
            stage: self.stage,
            sub_operation: self.sub_operation.copy()?,
            names,
        })
    }

    /// Its number.
    pub fn stage(&self) -> u64
        ensures { result ≡ self.now.stage }
    {
        self.stage
    }

    /// Its sub-operation.
    pub fn sub_operation(&self) -> &SubOp
        ensures { sub_operation_of result.now ≡ self.now.sub_operation }
    {
        &self.sub_operation
    }

    /// Gives the elements that its sub-operation names their new names.
    ///
    /// Returns `OutOfMemory` where a number would pass 2^64 - 1, and then nothing changed.
    pub(crate) fn rename(&mut self, renaming: &Renaming) -> Result<(), OutOfMemory>
        ensures { OnOk result (self.new ≡ renamed_stage (renaming_of renaming.now) self.old) }
    {
        self.names = renaming.names(&self.names)?;
        Ok(())
    }

    /// The elements that its sub-operation names.
    pub fn names(&self) -> &ElementNames
        ensures { result.now ≡ self.now.names }
    {
        &self.names
    }
}

/// Stages in order.
pub type PlainStages = List<PlainStage>;

/// Gives the elements that each stage names their new names.
///
/// Returns `OutOfMemory` where a number would pass 2^64 - 1.
pub fn renamed_stages(stages: PlainStages, renaming: &Renaming) -> Result<PlainStages, OutOfMemory>
    ensures { IfOk result (λ new. new ≡ map (renamed_stage (renaming_of renaming.now)) stages) }
{
    let mut items = stages.into_items();
    for stage in items.iter_mut() {
        stage.rename(renaming)?;
    }
    Ok(PlainStages::of(items))
}
