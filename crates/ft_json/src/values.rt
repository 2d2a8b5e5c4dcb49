//! The texts of JSON values that are kept.

ghost use Rattle.std.specs.Prelude.{◌≡◌, ◌↔◌, IsTrue, IfOk, option_and_then, string_bytes};
ghost use Rattle.serde_json.specs.Find.{as_i64, as_number};
ghost use Rattle.serde_json.specs.View.{view};
ghost use Rattle.serde_json.specs.Written.{compact_text};
ghost use Rattle.ft_json.specs.Bounds.{kept_levels, read_levels};
ghost use Rattle.ft_json.specs.Canonical.{IsCanonical, IsCanonicalText, IsTextWithin, value_of};
ghost use Rattle.ft_json.specs.Reading.{whole_within};

use crate::levels::opens_few;
use ft_base::{Datum, OutOfMemory, SmallString};
use serde_json::Value;
use std::alloc::Global;
use std::marker::Model;

/// The compact text of a JSON value, which contracts see as the list of its bytes.
///
/// The value has any number of levels, in each object its keys rise by their bytes, and its numbers
/// are whole numbers from -9223372036854775808 to 18446744073709551615.
#[derive(Drop)]
pub struct ValText {
    text: SmallString,
}

impl Model for ValText {
    ghost use Rattle.std.specs.Prelude.{List, ℕ};
    ghost use Rattle.ft_json.specs.Canonical.{IsCanonicalText};

    ghost Value = { List ℕ };

    ghost view = { λ a. a.text };

    ghost invariant = { λ a. IsCanonicalText a.text };
}

impl ValText {
    /// A copy of `text`, which is the compact text of such a value.
    pub fn new(alloc: Global, text: &str) -> Result<ValText, OutOfMemory>
        requires { IsCanonicalText text.now }
        ensures { IfOk result (λ copy. copy ≡ text.now) }
    {
        Ok(ValText {
            text: SmallString::new(alloc, text)?,
        })
    }

    /// The text itself, which is the compact text of such a value.
    pub(crate) fn from_compact(text: String) -> ValText
        requires { IsCanonicalText (string_bytes text) }
        ensures { result ≡ string_bytes text }
    {
        ValText {
            text: SmallString::from_string(text),
        }
    }

    /// The text.
    pub fn as_str(&self) -> &str
        ensures value { result.now ≡ self.now }
        ensures canonical { IsCanonicalText self.now }
    {
        self.text.as_str()
    }

    /// Whether the value has at most 100 levels, as each that is kept.
    pub fn is_kept(&self) -> bool
        ensures { IsTrue result ↔ IsTextWithin kept_levels self.now }
    {
        opens_few(self.text.as_str().as_bytes())
    }

    /// The value that the text stands for, which has at most 127 levels.
    pub fn to_value(&self) -> Result<Value, OutOfMemory>
        requires { IsTextWithin read_levels self.now }
        ensures value { IfOk result (λ value. view value ≡ value_of self.now) }
        ensures canonical { IfOk result (λ value. IsCanonical (view value)) }
        ensures text { IfOk result (λ value. compact_text (view value) ≡ self.now) }
    {
        match Value::from_str(self.text.allocator(), self.text.as_str()) {
            Ok(value) => Ok(value),
            Err(error) if error.is_memory() => Err(OutOfMemory),
            Err(_) => unreachable!(),
        }
    }

    /// The whole number from `low` to `high` that the text writes, which is read as a field's would
    /// be.
    #[tactic(auto, unfolding(crate::specs::Reading::whole_within))]
    pub fn whole_within(&self, low: i64, high: i64) -> Option<i64>
        ensures { result ≡ whole_within (value_of self.now) low high }
    {
        self.integer().filter(|z| low <= *z && *z <= high)
    }

    fn integer(&self) -> Option<i64>
        ensures { result ≡ option_and_then as_i64 (as_number (value_of self.now)) }
    {
        self.text.as_str().parse::<i64>().ok()
    }
}

impl Datum for ValText {
    fn copy(&self) -> Result<ValText, OutOfMemory> {
        Ok(ValText {
            text: self.text.copy()?,
        })
    }

    fn same(&self, other: &ValText) -> bool {
        self.text.same(&other.text)
    }
}
