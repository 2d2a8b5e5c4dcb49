//! Texts.

ghost use Rattle.std.specs.Prelude.{◌≡◌, IfOk, chars, encode_utf8_all, string_bytes};
ghost use Rattle.ft_base.specs.Texts.{IsText};

use crate::lists::Datum;
use crate::memory::OutOfMemory;
use crate::small_strings::SmallString;
use std::alloc::Global;
use std::marker::Model;

/// A text, which contracts see as the list of its characters (Unicode scalar values, each by its
/// number). Names, labels, ids and keys are texts too.
#[derive(Drop)]
pub struct Text {
    text: SmallString,
}

impl Model for Text {
    ghost use Rattle.std.specs.Prelude.{List, ℕ, chars};

    ghost Value = { List ℕ };

    ghost view = { λ a. chars a.text };
}

impl Text {
    /// A copy of the characters of `text`.
    pub fn new(alloc: Global, text: &str) -> Result<Text, OutOfMemory>
        ensures { IfOk result (λ copy. copy ≡ chars text.now) }
    {
        Ok(Text {
            text: SmallString::new(alloc, text)?,
        })
    }

    /// The characters of `text`.
    pub fn from_string(text: String) -> Text
        ensures { result ≡ chars (string_bytes text) }
    {
        Text {
            text: SmallString::from_string(text),
        }
    }

    /// The characters, as a string slice.
    pub fn as_str(&self) -> &str
        ensures bytes { result.now ≡ encode_utf8_all self.now }
        ensures characters { chars result.now ≡ self.now }
        ensures is_text { IsText self.now }
    {
        self.text.as_str()
    }
}

impl Datum for Text {
    fn copy(&self) -> Result<Text, OutOfMemory> {
        Ok(Text {
            text: self.text.copy()?,
        })
    }

    fn same(&self, other: &Text) -> bool {
        self.as_str() == other.as_str()
    }
}
