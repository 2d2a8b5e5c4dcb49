//! What a value is, and the fields of an object.

ghost use Rattle.std.specs.Prelude.{◌≡◌, map, option_map};
ghost use Rattle.std.specs.Result.{result_map_both};
ghost use Rattle.serde_json.specs.View.{view};
ghost use Rattle.ft_json.specs.Readers.{Gives};
ghost use Rattle.ft_json.specs.Objects.{entry_pairs};
ghost use Rattle.ft_json.specs.Reading.{whole_within, count, items, pairs, field, given_field, num_field, signed_field, count_field, str_field, text_field, array_field};

use crate::faults::FieldFault;
use crate::fields::Field;
use crate::limits::{GREATEST_COUNT, GREATEST_NUMBER};
use ft_base::Text;
use serde_json::{Map, Value};
use std::alloc::Global;

/// The whole number from `low` to `high` that the value is, written without fraction and exponent;
/// `-0` is none.
#[tactic(auto, unfolding(crate::specs::Reading::whole_within))]
pub fn whole_within(value: &Value, low: i64, high: i64) -> Option<i64>
    ensures { result ≡ whole_within (view value.now) low high }
{
    value.as_i64().filter(|z| low <= *z && *z <= high)
}

/// The count that the value is: a whole number from 0 to 9007199254740991.
#[tactic(auto, unfolding(crate::specs::Reading::count))]
pub fn count(value: &Value) -> Option<u64>
    ensures { result ≡ count (view value.now) }
{
    value.as_u64().filter(|n| *n <= GREATEST_COUNT)
}

/// The items of the array that the value is.
#[tactic(auto, using(crate::proofs::Lists::listed_items_view), unfolding(crate::specs::Reading::items))]
pub fn items(value: &Value) -> Option<&[Value]>
    ensures { option_map (λ found. map view found.now) result ≡ items (view value.now) }
{
    match value.as_array() {
        Some(list) => Some(list.as_slice()),
        None => None,
    }
}

/// The entries of the object that the value is, by rising key.
#[tactic(auto, using(crate::proofs::Lists::paired_members_view), unfolding(crate::specs::Reading::pairs))]
pub fn pairs(value: &Value) -> Option<&Map<String, Value>>
    ensures { option_map (λ found. entry_pairs found.now.entries) result ≡ pairs (view value.now) }
{
    value.as_object()
}

/// The value of a field: None exactly where `value` is no object, or has no such field.
#[tactic(auto, unfolding(crate::specs::Reading::field))]
pub fn field(value: &Value, f: Field) -> Option<&Value>
    ensures { option_map (λ found. view found.now) result ≡ field (view value.now) f }
{
    value.get(f.name())
}

/// The same, where null counts as absent.
#[tactic(auto, unfolding(crate::specs::Reading::given_field))]
pub fn given_field(value: &Value, f: Field) -> Option<&Value>
    ensures { option_map (λ found. view found.now) result ≡ given_field (view value.now) f }
{
    match field(value, f) {
        Some(found) if !found.is_null() => Some(found),
        _ => None,
    }
}

/// The field as a whole number from -1 to 9007199254740991.
///
/// Returns `Missing` exactly where `value` is no object or has no such field, and `WrongKind`
/// exactly where the field is there and is no such number.
#[tactic(auto, unfolding(crate::specs::Reading::num_field))]
pub fn num_field(value: &Value, f: Field) -> Result<i64, FieldFault>
    ensures { result ≡ num_field (view value.now) f }
{
    let found = field(value, f).ok_or(FieldFault::Missing(f))?;
    whole_within(found, -1, GREATEST_NUMBER).ok_or(FieldFault::WrongKind(f))
}

/// The field as a whole number from -9007199254740991 to 9007199254740991.
///
/// Returns `Missing` exactly where `value` is no object or has no such field, and `WrongKind`
/// exactly where the field is there and is no such number.
#[tactic(auto, unfolding(crate::specs::Reading::signed_field))]
pub fn signed_field(value: &Value, f: Field) -> Result<i64, FieldFault>
    ensures { result ≡ signed_field (view value.now) f }
{
    let found = field(value, f).ok_or(FieldFault::Missing(f))?;
    whole_within(found, -GREATEST_NUMBER, GREATEST_NUMBER).ok_or(FieldFault::WrongKind(f))
}

/// The field as a count: a whole number from 0 to 9007199254740991.
///
/// Returns `Missing` exactly where `value` is no object or has no such field, and `WrongKind`
/// exactly where the field is there and is no count.
#[tactic(auto, unfolding(crate::specs::Reading::count_field))]
pub fn count_field(value: &Value, f: Field) -> Result<u64, FieldFault>
    ensures { result ≡ count_field (view value.now) f }
{
    let found = field(value, f).ok_or(FieldFault::Missing(f))?;
    count(found).ok_or(FieldFault::WrongKind(f))
}

/// The field as a string, borrowed from the value.
///
/// Returns `Missing` exactly where `value` is no object or has no such field, and `WrongKind`
/// exactly where the field is there and is no string.
#[tactic(auto, unfolding(crate::specs::Reading::str_field))]
pub fn str_field(value: &Value, f: Field) -> Result<&str, FieldFault>
    ensures { result_map_both (λ found. found.now) (λ fault. fault) result
        ≡ str_field (view value.now) f }
{
    let found = field(value, f).ok_or(FieldFault::Missing(f))?;
    found.as_str().ok_or(FieldFault::WrongKind(f))
}

/// The field as a text.
///
/// Returns `Missing` exactly where `value` is no object or has no such field, `WrongKind` exactly
/// where the field is there and is no string, and `OutOfMemory` where there is no room for the text.
#[tactic(auto, unfolding(crate::specs::Reading::text_field, crate::specs::Reading::str_field))]
pub fn text_field(alloc: Global, value: &Value, f: Field) -> Result<Text, FieldFault>
    ensures { Gives FieldFault.OutOfMemory (text_field (view value.now) f) result }
{
    let found = str_field(value, f)?;
    Ok(Text::new(alloc, found)?)
}

/// The field as an array, by its items, which are borrowed from the value.
///
/// Returns `Missing` exactly where `value` is no object or has no such field, and `WrongKind`
/// exactly where the field is there and is no array.
#[tactic(auto, unfolding(crate::specs::Reading::array_field))]
pub fn array_field(value: &Value, f: Field) -> Result<&[Value], FieldFault>
    ensures { result_map_both (λ found. map view found.now) (λ fault. fault) result
        ≡ array_field (view value.now) f }
{
    let found = field(value, f).ok_or(FieldFault::Missing(f))?;
    items(found).ok_or(FieldFault::WrongKind(f))
}
