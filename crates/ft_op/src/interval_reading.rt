//! Reading operations on intervals from JSON values.

ghost use Rattle.std.specs.Prelude.{◌≡◌, Ok, Err};
ghost use Rattle.serde_json.specs.View.{view};
ghost use Rattle.ft_json.specs.Readers.{Reads};
ghost use Rattle.ft_op.specs.TextGrammar.{are_read_ends, interval_add, interval_change, interval_delete, interval_ends, interval_op, new_ends};
ghost use Rattle.ft_op.specs.WellFormed.{IsWellFormedText};

use crate::operations::{Ends, OpFault, TextOp};
use crate::reading::read_given_properties;
use ft_json::{Field, field, num_field, text_field};
use serde_json::Value;
use std::alloc::Global;

/// The operation on an interval that the object is, whose field `interval` is given.
#[tactic(auto, unfolding(crate::specs::TextGrammar::interval_op))]
pub(crate) fn read_interval_op(
    alloc: Global,
    value: &Value,
    interval: &Value,
) -> Result<TextOp, OpFault>
    ensures { Reads OpFault.OutOfMemory (interval_op (view value.now) (view interval.now)) IsWellFormedText result }
{
    match interval.as_str() {
        Some("add") => read_interval_add(alloc, value),
        Some("change") => read_interval_change(alloc, value),
        Some("delete") => read_interval_delete(alloc, value),
        Some(_) | None => Err(OpFault::WrongKind(Field::Interval)),
    }
}

// The new interval that the object is.
#[tactic(auto, unfolding(crate::specs::TextGrammar::interval_add))]
fn read_interval_add(alloc: Global, value: &Value) -> Result<TextOp, OpFault>
    ensures { Reads OpFault.OutOfMemory (interval_add (view value.now)) IsWellFormedText result }
{
    Ok(TextOp::IntervalAdd {
        label: text_field(alloc, value, Field::Label)?,
        id: text_field(alloc, value, Field::Id)?,
        ends: read_ends(value)?,
        props: read_given_properties(alloc, value)?,
    })
}

// The change of an interval that the object is.
#[tactic(auto, unfolding(crate::specs::TextGrammar::interval_change))]
fn read_interval_change(alloc: Global, value: &Value) -> Result<TextOp, OpFault>
    ensures { Reads OpFault.OutOfMemory (interval_change (view value.now)) IsWellFormedText result }
{
    Ok(TextOp::IntervalChange {
        label: text_field(alloc, value, Field::Label)?,
        id: text_field(alloc, value, Field::Id)?,
        ends: read_new_ends(value)?,
        props: read_given_properties(alloc, value)?,
    })
}

// The deletion of an interval that the object is.
#[tactic(auto, unfolding(crate::specs::TextGrammar::interval_delete))]
fn read_interval_delete(alloc: Global, value: &Value) -> Result<TextOp, OpFault>
    ensures { Reads OpFault.OutOfMemory (interval_delete (view value.now)) IsWellFormedText result }
{
    Ok(TextOp::IntervalDelete {
        label: text_field(alloc, value, Field::Label)?,
        id: text_field(alloc, value, Field::Id)?,
    })
}

// The ends that the object has.
#[tactic(auto, unfolding(crate::specs::TextGrammar::interval_ends))]
fn read_ends(value: &Value) -> Result<Ends, OpFault>
    ensures { result ≡ interval_ends (view value.now) }
{
    let start = num_field(value, Field::Start)?;
    let end = num_field(value, Field::End)?;
    if !are_read_ends(start, end) {
        return Err(OpFault::Reversed {
            pos1: start,
            pos2: end,
        });
    }
    Ok(Ends { start, end })
}

// Whether these may be the ends of an interval: both -1, or in order from 0 on.
fn are_read_ends(start: i64, end: i64) -> bool
    ensures { result ≡ are_read_ends start end }
{
    (start == -1 && end == -1) || (start >= 0 && start <= end)
}

// The new ends that the object has: both, or none.
#[tactic(auto, unfolding(crate::specs::TextGrammar::new_ends))]
fn read_new_ends(value: &Value) -> Result<Option<Ends>, OpFault>
    ensures { result ≡ new_ends (view value.now) }
{
    if field(value, Field::Start).is_none() && field(value, Field::End).is_none() {
        return Ok(None);
    }
    Ok(Some(read_ends(value)?))
}
