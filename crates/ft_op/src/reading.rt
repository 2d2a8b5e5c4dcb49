//! What operations of the text and of the grid have in common: ranges, values and properties.

ghost use Rattle.std.specs.Prelude.{◌≡◌, ◌<◌, ◌^◌, pos, Ok, Err, Some, IfOk};
ghost use Rattle.serde_json.specs.View.{view};
ghost use Rattle.ft_json.specs.Readers.{Gives, Reads};
ghost use Rattle.ft_json.specs.Bounds.{kept_levels};
ghost use Rattle.ft_json.specs.Canonical.{IsTextWithin};
ghost use Rattle.ft_json.specs.Objects.{entry_pairs};
ghost use Rattle.ft_json.specs.Reading.{read_line};
ghost use Rattle.ft_op.specs.Reading.{given_properties, is_object, kept_value, property_set_of, range, set_value};
ghost use Rattle.ft_op.specs.WellFormed.{IsPropertySet, IsSetValue};

use crate::operations::OpFault;
use ft_base::Text;
use ft_json::{Field, ValText, canonical, count_field, given_field, pairs};
use ft_props::PropSet;
use serde_json::{Map, Value};
use std::alloc::Global;

/// Whether the value is an object.
pub fn is_object(value: &Value) -> bool
    ensures { result ≡ is_object (view value.now) }
{
    value.is_object()
}

/// The range of an operation.
#[tactic(auto, unfolding(crate::specs::Reading::range))]
pub(crate) fn read_range(value: &Value) -> Result<(u64, u64), OpFault>
    ensures { result ≡ range (view value.now) }
{
    let pos1 = count_field(value, Field::Pos1)?;
    let pos2 = count_field(value, Field::Pos2)?;
    if pos1 > pos2 {
        return Err(reversed(pos1, pos2));
    }
    Ok((pos1, pos2))
}

// The fault of two counts of which the second is less.
fn reversed(first: u64, second: u64) -> OpFault
    requires first { first < 2 ^ 53 }
    requires second { second < 2 ^ 53 }
    ensures { result ≡ OpFault.Reversed (pos first) (pos second) }
{
    OpFault::Reversed {
        pos1: first as i64,
        pos2: second as i64,
    }
}

/// The text of a value of a property or a cell.
#[tactic(auto, unfolding(crate::specs::Reading::kept_value))]
pub(crate) fn read_kept_value(alloc: Global, value: &Value) -> Result<ValText, OpFault>
    ensures reads { Gives OpFault.OutOfMemory (kept_value (view value.now)) result }
    ensures kept { IfOk result (IsTextWithin kept_levels) }
    ensures reads_back { IfOk result (λ text. read_line text ≡ Ok (view value.now)) }
{
    Ok(canonical(alloc, value)?)
}

// The value that a key is set to, none for null.
#[tactic(auto, unfolding(crate::specs::Reading::set_value))]
fn read_set_value(alloc: Global, value: &Value) -> Result<Option<ValText>, OpFault>
    ensures { Reads OpFault.OutOfMemory (set_value (view value.now)) IsSetValue result }
{
    if value.is_null() {
        return Ok(None);
    }
    Ok(Some(read_kept_value(alloc, value)?))
}

/// The properties of the field `props`: none where it is absent or null.
#[tactic(auto, unfolding(crate::specs::Reading::given_properties))]
pub(crate) fn read_given_properties(alloc: Global, value: &Value) -> Result<PropSet, OpFault>
    ensures { Reads OpFault.OutOfMemory (given_properties (view value.now)) IsPropertySet result }
{
    match given_field(value, Field::Props) {
        Some(props) => read_property_set(
            alloc,
            pairs(props).ok_or(OpFault::WrongKind(Field::Props))?,
        ),
        None => Ok(PropSet::new(alloc)),
    }
}

// The properties of the entries of an object.
fn read_property_set(alloc: Global, entries: &Map<String, Value>) -> Result<PropSet, OpFault>
    ensures { Reads OpFault.OutOfMemory (property_set_of (Some (entry_pairs entries.now.entries))) IsPropertySet result }
{
    let mut set = PropSet::new(alloc);
    for (key, value) in entries.iter() {
        let value = read_set_value(alloc, value)?;
        set.put(Text::new(alloc, key.as_str())?, value)?;
    }
    Ok(set)
}
