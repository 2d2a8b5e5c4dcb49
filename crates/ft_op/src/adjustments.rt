//! Reading the adjustments of an annotation.

ghost use Rattle.std.specs.Prelude.{◌≡◌, Ok, Err, IfOk, IsFalse, Some, chars, is_some};
ghost use Rattle.serde_json.specs.View.{view};
ghost use Rattle.ft_json.specs.Readers.{Reads};
ghost use Rattle.ft_json.specs.Objects.{entry_pairs};
ghost use Rattle.ft_props.specs.Properties.{value_of};
ghost use Rattle.ft_op.specs.TextGrammar.{adjustment, adjustment_beside, adjustment_of, adjustments_of, bound, given_adjustments};
ghost use Rattle.ft_op.specs.WellFormed.{AreAdjustments, IsAdjustment};

use crate::operations::OpFault;
use crate::reading::is_object;
use ft_base::Text;
use ft_json::{Field, given_field, pairs, signed_field};
use ft_props::{AdjSet, Adjust, PropSet};
use serde_json::{Map, Value};
use std::alloc::Global;

/// The adjustments of the field `adjust`: none where it is absent or null. No key may be in the set.
#[tactic(auto, unfolding(crate::specs::TextGrammar::given_adjustments))]
pub(crate) fn read_given_adjustments(
    alloc: Global,
    set: &PropSet,
    value: &Value,
) -> Result<AdjSet, OpFault>
    ensures { Reads OpFault.OutOfMemory (given_adjustments set.now (view value.now)) (AreAdjustments set.now) result }
{
    match given_field(value, Field::Adjust) {
        Some(adjust) => read_adjustments(
            alloc,
            set,
            pairs(adjust).ok_or(OpFault::WrongKind(Field::Adjust))?,
        ),
        None => Ok(AdjSet::new(alloc)),
    }
}

// The adjustments of the entries of an object.
fn read_adjustments(
    alloc: Global,
    set: &PropSet,
    entries: &Map<String, Value>,
) -> Result<AdjSet, OpFault>
    ensures { Reads OpFault.OutOfMemory (adjustments_of set.now (Some (entry_pairs entries.now.entries))) (AreAdjustments set.now) result }
{
    let mut adjustments = AdjSet::new(alloc);
    for (key, value) in entries.iter() {
        let adjustment = read_adjustment_beside(set, key.as_str(), value)?;
        adjustments.put(Text::new(alloc, key.as_str())?, adjustment)?;
    }
    Ok(adjustments)
}

// The adjustment that the value is, of a key that the set doesn't have.
#[tactic(auto, unfolding(crate::specs::TextGrammar::adjustment_beside))]
fn read_adjustment_beside(set: &PropSet, key: &str, value: &Value) -> Result<Adjust, OpFault>
    ensures value { result ≡ adjustment_beside set.now (chars key.now) (view value.now) }
    ensures formed { IfOk result (λ made. IsFalse (is_some (value_of (chars key.now) set.now)) × IsAdjustment made) }
{
    if set.contains_key(key) {
        return Err(OpFault::WrongKind(Field::Adjust));
    }
    read_adjustment(value)
}

// The adjustment that the value is.
#[tactic(auto, unfolding(crate::specs::TextGrammar::adjustment))]
fn read_adjustment(value: &Value) -> Result<Adjust, OpFault>
    ensures { result ≡ adjustment (view value.now) }
{
    if !is_object(value) {
        return Err(OpFault::WrongKind(Field::Adjust));
    }
    let delta = signed_field(value, Field::Delta)?;
    let min = read_bound(value, Field::Min)?;
    let max = read_bound(value, Field::Max)?;
    adjustment_within(delta, min, max)
}

// A bound of an adjustment: none where it is absent or null.
#[tactic(auto, unfolding(crate::specs::TextGrammar::bound))]
fn read_bound(value: &Value, name: Field) -> Result<Option<i64>, OpFault>
    ensures { result ≡ bound (view value.now) name }
{
    if given_field(value, name).is_none() {
        return Ok(None);
    }
    Ok(Some(signed_field(value, name)?))
}

// The adjustment of these numbers.
fn adjustment_within(delta: i64, min: Option<i64>, max: Option<i64>) -> Result<Adjust, OpFault>
    ensures { result ≡ adjustment_of delta min max }
{
    match (min, max) {
        (Some(low), Some(high)) if low > high => Err(OpFault::Reversed {
            pos1: low,
            pos2: high,
        }),
        _ => Ok(Adjust { delta, min, max }),
    }
}
