//! Pending stages as they are sent again after a reconnection.

ghost use Rattle.std.specs.Prelude.{◌≡◌, ◌≤◌, ◌↔◌, ◌+◌, ◌∷◌, ◌++◌, [], IfOk, IsTrue, OnOk, Some, flat_map, length, map, option_to_list};
ghost use Rattle.ft_op.specs.declared.operations.ChannelOp.TheVariants.{Grid, Text};
ghost use Rattle.ft_op.specs.Operation.{OnGrid, OnText};
ghost use Rattle.ft_op.specs.Pieces.{base_op_of, cell_op_of, op_of, pieces};
ghost use Rattle.ft_msg.specs.Reconnection.{carried_stage};
ghost use Rattle.ft_plain_document.specs.SubOperations.{sub_operation_of};
ghost use Rattle.ft_plain.specs.Cut.{cut, cut_length};
ghost use Rattle.ft_replica.specs.Own.{resent};

use ft_base::OutOfMemory;
use ft_op::{BaseOp, BaseOps, CellOp, CellOps, ChannelOp, GridOp, TextOp};
use ft_plain_document::{PlainDocument, PlainStage, PlainStages, SubOp};
use ft_replica::Resent;
use std::alloc::Global;
use std::collections::VecDeque;

/// The edits as they are sent again, of which each has so many of the stages; the stages that go on are
/// added to `carried`.
pub fn resend(
    doc: &PlainDocument,
    counts: &[usize],
    stages: &[PlainStage],
    carried: &mut PlainStages,
) -> Result<VecDeque<Resent>, OutOfMemory>
    requires { cut_length counts.now ≤ length stages.now }
    ensures again { IfOk result (λ v. v.items ≡ map (resent doc.now) (cut counts.now stages.now)) }
    ensures carried { OnOk result (carried.new ≡ carried.old ++ flat_map (λ ss. flat_map (carried_stage doc.now) ss) (cut counts.now stages.now)) }
{
    let mut again = VecDeque::new(doc.alloc());
    let mut rest = stages;
    for count in counts {
        let (edit, later) = rest.split_at(*count);
        again.push_back(resend_edit(doc, edit, carried)?)?;
        rest = later;
    }
    Ok(again)
}

// The edit with these stages as it is sent again; the stages that go on are added to `carried`.
fn resend_edit(
    doc: &PlainDocument,
    stages: &[PlainStage],
    carried: &mut PlainStages,
) -> Result<Resent, OutOfMemory>
    ensures resent { IfOk result (λ again. again ≡ resent doc.now stages.now) }
    ensures carried { OnOk result (carried.new ≡ carried.old ++ flat_map (carried_stage doc.now) stages.now) }
{
    let mut pieces = VecDeque::new(doc.alloc());
    let mut going = PlainStages::new(doc.alloc());
    for stage in stages {
        resend_stage(doc, stage, &mut pieces, &mut going)?;
    }
    let op = op_of(doc.alloc(), pieces)?;
    let count = going.len();
    carried.append(going)?;
    Ok(Resent { op, stages: count })
}

/// The numbers of the stages.
pub fn stage_numbers(alloc: Global, stages: &[PlainStage]) -> Result<Vec<u64>, OutOfMemory>
    ensures { IfOk result (λ v. v.items ≡ map (λ t. t.stage) stages.now) }
{
    let mut numbers = Vec::new(alloc);
    for stage in stages {
        numbers.push(stage.stage())?;
    }
    Ok(numbers)
}

// Adds the pieces of the stage, and the stage as it goes on.
fn resend_stage(
    doc: &PlainDocument,
    stage: &PlainStage,
    all: &mut VecDeque<SubOp>,
    carried: &mut PlainStages,
) -> Result<(), OutOfMemory>
    ensures pieces { OnOk result (map sub_operation_of all.new.items ≡ map sub_operation_of all.old.items ++ pieces doc.now stage.now) }
    ensures carried { OnOk result (carried.new ≡ carried.old ++ carried_stage doc.now stage.now) }
{
    let mut pieces = doc.pieces(stage)?;
    if let Some(stage) = carried_stage(doc, stage, pieces.is_empty())? {
        carried.push(stage)?;
    }
    all.append(&mut pieces)?;
    Ok(())
}

// The stage as it goes on: gone without a piece; an interval operation with its ends settled.
fn carried_stage(
    doc: &PlainDocument,
    stage: &PlainStage,
    is_without_piece: bool,
) -> Result<Option<PlainStage>, OutOfMemory>
    requires { IsTrue is_without_piece ↔ (pieces doc.now stage.now ≡ []) }
    ensures { IfOk result (λ carried. option_to_list carried ≡ carried_stage doc.now stage.now) }
{
    if let SubOp::Intervals(_) = stage.sub_operation() {
        let names = stage.names().settled(doc.text(), stage.stage());
        return Ok(Some(stage.copy_with(names)?));
    }
    if is_without_piece {
        return Ok(None);
    }
    Ok(Some(stage.copy_with(stage.names().copy())?))
}

// The operation that pieces make: one piece bare, several as a group, none for none.
fn op_of(alloc: Global, mut pieces: VecDeque<SubOp>) -> Result<Option<ChannelOp>, OutOfMemory>
    ensures { IfOk result (λ op. op ≡ op_of (map sub_operation_of pieces.items)) }
{
    match pieces.pop_front() {
        None => Ok(None),
        Some(SubOp::Text(op)) => Ok(Some(ChannelOp::Text(text_op_of(alloc, op, pieces)?))),
        Some(SubOp::Intervals(op)) => Ok(Some(ChannelOp::Text(op))),
        Some(SubOp::Grid(op)) => Ok(Some(ChannelOp::Grid(grid_op_of(alloc, op, pieces)?))),
    }
}

// The operation of the text that these pieces make.
fn text_op_of(alloc: Global, first: BaseOp, rest: VecDeque<SubOp>) -> Result<TextOp, OutOfMemory>
    ensures { IfOk result (λ op. Some (Text op) ≡ op_of (OnText first ∷ map sub_operation_of rest.items)) }
{
    if rest.is_empty() {
        return Ok(TextOp::One(first));
    }
    let mut ops = BaseOps::new(alloc);
    ops.push(first)?;
    push_base_ops(&mut ops, rest)?;
    Ok(TextOp::Group(ops))
}

// Adds the pieces on the elements of the text.
fn push_base_ops(ops: &mut BaseOps, mut rest: VecDeque<SubOp>) -> Result<(), OutOfMemory>
    ensures { OnOk result (ops.new ≡ ops.old ++ flat_map base_op_of (map sub_operation_of rest.items)) }
{
    while let Some(op) = rest.pop_front() {
        if let SubOp::Text(op) = op {
            ops.push(op)?;
        }
    }
    Ok(())
}

// The operation of the grid that these pieces make.
fn grid_op_of(alloc: Global, first: CellOp, rest: VecDeque<SubOp>) -> Result<GridOp, OutOfMemory>
    ensures { IfOk result (λ op. Some (Grid op) ≡ op_of (OnGrid first ∷ map sub_operation_of rest.items)) }
{
    if rest.is_empty() {
        return Ok(GridOp::One(first));
    }
    let mut ops = CellOps::new(alloc);
    ops.push(first)?;
    push_cell_ops(&mut ops, rest)?;
    Ok(GridOp::Group(ops))
}

// Adds the pieces on the grid.
fn push_cell_ops(ops: &mut CellOps, mut rest: VecDeque<SubOp>) -> Result<(), OutOfMemory>
    ensures { OnOk result (ops.new ≡ ops.old ++ flat_map cell_op_of (map sub_operation_of rest.items)) }
{
    while let Some(op) = rest.pop_front() {
        if let SubOp::Grid(op) = op {
            ops.push(op)?;
        }
    }
    Ok(())
}
