//! Reading operations of the text from JSON values.

ghost use Rattle.std.specs.Prelude.{◌≡◌, Ok, Err, IfOk, map};
ghost use Rattle.std.specs.List.{AllByRecursion};
ghost use Rattle.serde_json.specs.View.{view};
ghost use Rattle.ft_json.specs.Readers.{Reads};
ghost use Rattle.ft_op.specs.Reading.{read_each};
ghost use Rattle.ft_op.specs.TextGrammar.{annotation, base_op, group, group_item, insertion, removal, text_op, typed_op};
ghost use Rattle.ft_op.specs.WellFormed.{IsWellFormedBase, IsWellFormedText};

use crate::adjustments::read_given_adjustments;
use crate::groups::{GroupItem, read_items};
use crate::interval_reading::read_interval_op;
use crate::limits::{ANNOTATION, GROUP, INSERTION, REMOVAL};
use crate::operations::{BaseOp, OpFault, TextOp};
use crate::reading::{is_object, read_given_properties, read_range};
use crate::segments::read_segment;
use ft_json::{Field, array_field, count_field, field};
use ft_props::Changes;
use serde_json::Value;
use std::alloc::Global;

/// The operation of the text that the value is.
///
/// What is read is well formed. Returns the first fault in the order in which its fields are tested,
/// and `OutOfMemory` where there is no room for it.
#[tactic(auto, unfolding(crate::specs::TextGrammar::text_op))]
pub fn read_text_op(alloc: Global, value: &Value) -> Result<TextOp, OpFault>
    ensures { Reads OpFault.OutOfMemory (text_op (view value.now)) IsWellFormedText result }
{
    if !is_object(value) {
        return Err(OpFault::WrongKind(Field::Contents));
    }
    if let Some(interval) = field(value, Field::Interval) {
        return read_interval_op(alloc, value, interval);
    }
    let kind = count_field(value, Field::Kind)?;
    read_typed_op(alloc, value, kind)
}

// The operation of this type.
fn read_typed_op(alloc: Global, value: &Value, kind: u64) -> Result<TextOp, OpFault>
    ensures { Reads OpFault.OutOfMemory (typed_op (view value.now) kind) IsWellFormedText result }
{
    if kind == GROUP {
        return read_group(alloc, value);
    }
    Ok(TextOp::One(read_base_op(alloc, value, kind)?))
}

// The group that the object is.
#[tactic(auto, unfolding(crate::specs::TextGrammar::group))]
fn read_group(alloc: Global, value: &Value) -> Result<TextOp, OpFault>
    ensures { Reads OpFault.OutOfMemory (group (view value.now)) IsWellFormedText result }
{
    let items = array_field(value, Field::Ops)?;
    Ok(TextOp::Group(read_items(alloc, items)?))
}

impl GroupItem for BaseOp {
    ghost use Rattle.ft_op.specs.TextGrammar.{group_item};
    ghost use Rattle.ft_op.specs.WellFormed.{IsWellFormedBase};

    ghost item = { group_item };

    ghost IsFormed = { IsWellFormedBase };

    #[tactic(auto, unfolding(crate::specs::TextGrammar::group_item))]
    fn read_item(alloc: Global, value: &Value) -> Result<BaseOp, OpFault> {
        if !is_object(value) {
            return Err(OpFault::WrongKind(Field::Ops));
        }
        let kind = count_field(value, Field::Kind)?;
        if kind == GROUP {
            return Err(OpFault::NestedGroup);
        }
        read_base_op(alloc, value, kind)
    }
}

// The operation of this type that may stand in a group.
#[tactic(auto, unfolding(crate::specs::TextGrammar::base_op))]
fn read_base_op(alloc: Global, value: &Value, kind: u64) -> Result<BaseOp, OpFault>
    ensures { Reads OpFault.OutOfMemory (base_op (view value.now) kind) IsWellFormedBase result }
{
    match kind {
        INSERTION => read_insertion(alloc, value),
        REMOVAL => read_removal(value),
        ANNOTATION => read_annotation(alloc, value),
        _ => Err(OpFault::UnknownType(kind)),
    }
}

// The insertion that the object is.
#[tactic(auto, unfolding(crate::specs::TextGrammar::insertion))]
fn read_insertion(alloc: Global, value: &Value) -> Result<BaseOp, OpFault>
    ensures { Reads OpFault.OutOfMemory (insertion (view value.now)) IsWellFormedBase result }
{
    let pos = count_field(value, Field::Pos1)?;
    let seg = field(value, Field::Seg).ok_or(OpFault::Missing(Field::Seg))?;
    Ok(BaseOp::Insert {
        pos,
        seg: read_segment(alloc, seg)?,
        props: read_given_properties(alloc, seg)?,
    })
}

// The removal that the object is.
#[tactic(auto, unfolding(crate::specs::TextGrammar::removal))]
fn read_removal(value: &Value) -> Result<BaseOp, OpFault>
    ensures value { result ≡ removal (view value.now) }
    ensures formed { IfOk result IsWellFormedBase }
{
    let (pos1, pos2) = read_range(value)?;
    Ok(BaseOp::Remove { pos1, pos2 })
}

// The annotation that the object is.
#[tactic(auto, unfolding(crate::specs::TextGrammar::annotation))]
fn read_annotation(alloc: Global, value: &Value) -> Result<BaseOp, OpFault>
    ensures { Reads OpFault.OutOfMemory (annotation (view value.now)) IsWellFormedBase result }
{
    let (pos1, pos2) = read_range(value)?;
    let props = read_given_properties(alloc, value)?;
    let adjust = read_given_adjustments(alloc, &props, value)?;
    Ok(BaseOp::Annotate {
        pos1,
        pos2,
        changes: Changes { props, adjust },
    })
}
