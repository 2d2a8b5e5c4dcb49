//! Reading operations of the grid from JSON values.

ghost use Rattle.std.specs.Prelude.{◌≡◌, Ok, Err, IfOk, map, option_map};
ghost use Rattle.std.specs.List.{AllByRecursion};
ghost use Rattle.serde_json.specs.View.{view};
ghost use Rattle.ft_json.specs.Readers.{Reads};
ghost use Rattle.ft_op.specs.Reading.{read_each};
ghost use Rattle.ft_op.specs.GridGrammar.{cell_op, cell_write, grid_op, group, group_item, is_group, splice, splice_in, splice_out, target_of, typed_splice, untargeted};
ghost use Rattle.ft_op.specs.WellFormed.{IsWellFormedCell, IsWellFormedGrid};

use crate::groups::{GroupItem, read_items};
use crate::limits::{GROUP, SPLICE_IN, SPLICE_LIMIT, SPLICE_OUT};
use crate::operations::{CellOp, GridOp, OpFault, Target};
use crate::reading::{is_object, read_kept_value, read_range};
use ft_json::{Field, array_field, count, count_field, field};
use serde_json::Value;
use std::alloc::Global;

/// The operation of the grid that the value is.
///
/// What is read is well formed. Returns the first fault in the order in which its fields are tested,
/// and `OutOfMemory` where there is no room for it.
#[tactic(auto, unfolding(crate::specs::GridGrammar::grid_op))]
pub fn read_grid_op(alloc: Global, value: &Value) -> Result<GridOp, OpFault>
    ensures { Reads OpFault.OutOfMemory (grid_op (view value.now)) IsWellFormedGrid result }
{
    if !is_object(value) {
        return Err(OpFault::WrongKind(Field::Contents));
    }
    if is_group(value) {
        return read_group(alloc, value);
    }
    Ok(GridOp::One(read_cell_op(alloc, value)?))
}

// Whether the object is a group: it has no field `target`, and its type is 3.
#[tactic(auto, unfolding(crate::specs::GridGrammar::is_group))]
fn is_group(value: &Value) -> bool
    ensures { result ≡ is_group (view value.now) }
{
    field(value, Field::Target).is_none()
        && field(value, Field::Kind)
            .and_then(count)
            .is_some_and(|n| n == GROUP)
}

// The group that the object is.
#[tactic(auto, unfolding(crate::specs::GridGrammar::group))]
fn read_group(alloc: Global, value: &Value) -> Result<GridOp, OpFault>
    ensures { Reads OpFault.OutOfMemory (group (view value.now)) IsWellFormedGrid result }
{
    let items = array_field(value, Field::Ops)?;
    Ok(GridOp::Group(read_items(alloc, items)?))
}

impl GroupItem for CellOp {
    ghost use Rattle.ft_op.specs.GridGrammar.{group_item};
    ghost use Rattle.ft_op.specs.WellFormed.{IsWellFormedCell};

    ghost item = { group_item };

    ghost IsFormed = { IsWellFormedCell };

    #[tactic(auto, unfolding(crate::specs::GridGrammar::group_item))]
    fn read_item(alloc: Global, value: &Value) -> Result<CellOp, OpFault> {
        if !is_object(value) {
            return Err(OpFault::WrongKind(Field::Ops));
        }
        if is_group(value) {
            return Err(OpFault::NestedGroup);
        }
        read_cell_op(alloc, value)
    }
}

// The operation of the object, which is no group.
#[tactic(auto, unfolding(crate::specs::GridGrammar::cell_op))]
fn read_cell_op(alloc: Global, value: &Value) -> Result<CellOp, OpFault>
    ensures { Reads OpFault.OutOfMemory (cell_op (view value.now)) IsWellFormedCell result }
{
    match field(value, Field::Target) {
        Some(target) => read_splice(value, target),
        None => read_untargeted(alloc, value, field(value, Field::Kind)),
    }
}

// The operation without a target, whose field `type` is given.
fn read_untargeted(alloc: Global, value: &Value, kind: Option<&Value>) -> Result<CellOp, OpFault>
    ensures { Reads OpFault.OutOfMemory (untargeted (view value.now) (option_map (λ d. view d.now) kind.entry)) IsWellFormedCell result }
{
    let kind = kind.ok_or(OpFault::Missing(Field::Kind))?;
    if kind.as_str() == Some("set") {
        return read_cell_write(alloc, value);
    }
    match count(kind) {
        Some(n) => Err(OpFault::UnknownType(n)),
        None => Err(OpFault::WrongKind(Field::Kind)),
    }
}

// The write to a cell that the object is.
#[tactic(auto, unfolding(crate::specs::GridGrammar::cell_write))]
fn read_cell_write(alloc: Global, value: &Value) -> Result<CellOp, OpFault>
    ensures { Reads OpFault.OutOfMemory (cell_write (view value.now)) IsWellFormedCell result }
{
    let row = count_field(value, Field::Row)?;
    let col = count_field(value, Field::Col)?;
    let written = field(value, Field::Value).ok_or(OpFault::Missing(Field::Value))?;
    Ok(CellOp::Set {
        row,
        col,
        value: read_kept_value(alloc, written)?,
    })
}

// The splice that the object is, whose field `target` is given.
#[tactic(auto, unfolding(crate::specs::GridGrammar::splice))]
fn read_splice(value: &Value, target: &Value) -> Result<CellOp, OpFault>
    ensures value { result ≡ splice (view value.now) (view target.now) }
    ensures formed { IfOk result IsWellFormedCell }
{
    let list = read_target(target)?;
    let kind = count_field(value, Field::Kind)?;
    read_typed_splice(list, value, kind)
}

// The list that the field `target` names.
fn read_target(target: &Value) -> Result<Target, OpFault>
    ensures { result ≡ target_of (view target.now) }
{
    match target.as_str() {
        Some("rows") => Ok(Target::Rows),
        Some("cols") => Ok(Target::Cols),
        Some(_) | None => Err(OpFault::WrongKind(Field::Target)),
    }
}

// The splice of this type.
fn read_typed_splice(list: Target, value: &Value, kind: u64) -> Result<CellOp, OpFault>
    ensures { result ≡ typed_splice list (view value.now) kind }
{
    match kind {
        SPLICE_IN => read_splice_in(list, value),
        SPLICE_OUT => read_splice_out(list, value),
        _ => Err(OpFault::UnknownType(kind)),
    }
}

// The splice of new units that the object is.
#[tactic(auto, unfolding(crate::specs::GridGrammar::splice_in))]
fn read_splice_in(list: Target, value: &Value) -> Result<CellOp, OpFault>
    ensures { result ≡ splice_in list (view value.now) }
{
    let pos = count_field(value, Field::Pos1)?;
    let units = count_field(value, Field::Count)?;
    if units > SPLICE_LIMIT {
        return Err(OpFault::CountLimit);
    }
    Ok(CellOp::SpliceIn {
        target: list,
        pos,
        count: units,
    })
}

// The removal of units that the object is.
#[tactic(auto, unfolding(crate::specs::GridGrammar::splice_out))]
fn read_splice_out(list: Target, value: &Value) -> Result<CellOp, OpFault>
    ensures { result ≡ splice_out list (view value.now) }
{
    let (pos1, pos2) = read_range(value)?;
    Ok(CellOp::SpliceOut {
        target: list,
        pos1,
        pos2,
    })
}
