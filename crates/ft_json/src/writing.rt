//! From a value to its text.

ghost use Rattle.std.specs.Prelude.{◌≡◌, IfOk};
ghost use Rattle.std.specs.Fmt.{signed_decimal};
ghost use Rattle.json.specs.Print.{quoted};
ghost use Rattle.serde_json.specs.View.{view};
ghost use Rattle.serde_json.specs.Written.{compact_text};
ghost use Rattle.ft_json.specs.Readers.{Gives};
ghost use Rattle.ft_json.specs.Bounds.{kept_levels};
ghost use Rattle.ft_json.specs.Canonical.{canonical, IsCanonical, IsTextWithin};
ghost use Rattle.ft_json.specs.Reading.{read_line};

use crate::checks::{has_at_most, has_whole_numbers};
use crate::faults::JsonFault;
use crate::limits::MOST_LEVELS;
use crate::values::ValText;
use ft_base::{OutOfMemory, Text};
use serde_json::Value;
use std::alloc::Global;

/// The compact text of a value that is kept, with the keys of each object in rising order of their
/// bytes. It reads back as the same value.
///
/// Returns `TooDeep` exactly where the value has more than 100 levels, `Fraction` exactly where it
/// hasn't, and some number inside isn't a whole number from -9223372036854775808 to
/// 18446744073709551615 (`-0` and what has a fraction or an exponent are none), and `OutOfMemory`
/// where there is no room for the text.
#[tactic(auto, unfolding(crate::specs::Canonical::canonical))]
pub fn canonical(alloc: Global, value: &Value) -> Result<ValText, JsonFault>
    ensures reads { Gives JsonFault.OutOfMemory (canonical (view value.now)) result }
    ensures kept { IfOk result (IsTextWithin kept_levels) }
    ensures reads_back { IfOk result (λ text. read_line text ≡ Ok (view value.now)) }
{
    if !has_at_most(MOST_LEVELS, value) {
        return Err(JsonFault::TooDeep);
    }
    if !has_whole_numbers(value) {
        return Err(JsonFault::Fraction);
    }
    Ok(compact(alloc, value)?)
}

/// The compact text of a value of any number of levels, in which each number is a whole number from
/// -9223372036854775808 to 18446744073709551615.
pub fn compact(alloc: Global, value: &Value) -> Result<ValText, OutOfMemory>
    requires { IsCanonical (view value.now) }
    ensures { IfOk result (λ text. text ≡ compact_text (view value.now)) }
{
    Ok(ValText::from_compact(value.to_string(alloc)?))
}

/// The text of a whole number.
pub fn whole_text(alloc: Global, z: i64) -> Result<ValText, OutOfMemory>
    ensures { IfOk result (λ text. text ≡ signed_decimal z) }
{
    compact(alloc, &Value::from(z))
}

/// The JSON string of the characters: `"`, `\` and the characters below U+0020 are escaped, and all
/// else stands as it is.
pub fn quote(alloc: Global, text: &Text) -> Result<Text, OutOfMemory>
    ensures { IfOk result (λ string. string ≡ quoted text.now) }
{
    let string = Value::try_from_str(alloc, text.as_str())?;
    let written = string.to_string(alloc)?;
    Text::new(alloc, written.as_str())
}
