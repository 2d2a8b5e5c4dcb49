//! What a value has to be to be kept.

ghost use Rattle.std.specs.Prelude.{◌≡◌, IsTrue, nat_le};
ghost use Rattle.serde_json.specs.Data.{depth, items_depth, members_depth};
ghost use Rattle.serde_json.specs.View.{view, items_view, members_view, number_view};
ghost use Rattle.ft_json.specs.Canonical.{has_whole_numbers, items_have_whole_numbers, members_have_whole_numbers, IsCanonical, ItemsAreCanonical, MembersAreCanonical, is_whole};

use serde_json::{Map, Number, Value};

/// Whether the value has at most `levels` levels.
#[cycle(levels)]
pub(crate) fn has_at_most(levels: usize, value: &Value) -> bool
    ensures { result ≡ nat_le (depth (view value.now)) levels }
{
    match value {
        Value::Array(items) => levels > 0 && have_at_most(levels - 1, items),
        Value::Object(members) => levels > 0 && members_have_at_most(levels - 1, members),
        _ => true,
    }
}

#[cycle(levels)]
fn have_at_most(levels: usize, items: &Vec<Value>) -> bool
    ensures { result ≡ nat_le (items_depth (items_view items.now.items)) levels }
{
    for item in items {
        if !has_at_most(levels, item) {
            return false;
        }
    }
    true
}

#[cycle(levels)]
fn members_have_at_most(levels: usize, members: &Map<String, Value>) -> bool
    ensures { result ≡ nat_le (members_depth (members_view members.now.entries)) levels }
{
    for (_, member) in members.iter() {
        if !has_at_most(levels, member) {
            return false;
        }
    }
    true
}

/// Whether each number inside is a whole number from -9223372036854775808 to 18446744073709551615.
#[cycle(whole)]
pub(crate) fn has_whole_numbers(value: &Value) -> bool
    ensures value { result ≡ has_whole_numbers (view value.now) }
    ensures canonical { IsTrue result → IsCanonical (view value.now) }
{
    match value {
        Value::Null | Value::Bool(_) | Value::String(_) => true,
        Value::Number(number) => is_whole(number),
        Value::Array(items) => have_whole_numbers(items),
        Value::Object(members) => members_have_whole_numbers(members),
    }
}

#[cycle(whole)]
fn have_whole_numbers(items: &Vec<Value>) -> bool
    ensures value { result ≡ items_have_whole_numbers (items_view items.now.items) }
    ensures canonical { IsTrue result → ItemsAreCanonical (items_view items.now.items) }
{
    for item in items {
        if !has_whole_numbers(item) {
            return false;
        }
    }
    true
}

#[cycle(whole)]
fn members_have_whole_numbers(members: &Map<String, Value>) -> bool
    ensures value { result ≡ members_have_whole_numbers (members_view members.now.entries) }
    ensures canonical { IsTrue result → MembersAreCanonical (members_view members.now.entries) }
{
    for (_, member) in members.iter() {
        if !has_whole_numbers(member) {
            return false;
        }
    }
    true
}

fn is_whole(number: &Number) -> bool
    ensures { result ≡ is_whole (number_view number.now) }
{
    number.as_u64().is_some() || number.as_i64().is_some_and(|n| n < 0)
}
