//! The characters of a run: a few in place, more in memory of their own.

ghost use Rattle.std.specs.Prelude.{◌≡◌, ◌+◌, ◌≤◌, ◌++◌, IfOk, IfSome, IfNone, OnOk, OnErr, MatchResult, MatchOption, chars, length, take, drop};
ghost use Rattle.std.specs.Str.{IsCharBoundary};
ghost use Rattle.ft_tree_leaves.specs.Characters.{bytes_of};
ghost use Rattle.ft_tree_leaves.specs.TextRuns.{longest_run};

use crate::long_text::{LongText, char_count};
use arrayvec::ArrayString;
use ft_base::OutOfMemory;
use std::alloc::Global;

/// How many bytes stand in place.
const IN_PLACE: usize = 15;

/// Text: a few bytes in place, more in memory of their own.
#[derive(Drop)]
pub(crate) enum Characters {
    Few(ArrayString<IN_PLACE>),
    Many(Box<LongText>),
}

impl Characters {
    /// A copy of `text`.
    pub(crate) fn new(alloc: Global, text: &str) -> Result<Characters, OutOfMemory>
        ensures { IfOk result (λ held. bytes_of held ≡ text.now) }
    {
        match ArrayString::from(text) {
            Ok(few) => Ok(Characters::Few(few)),
            Err(_) => Ok(Characters::Many(LongText::new(alloc, text)?)),
        }
    }

    /// How many characters it has: counted where they are few.
    pub(crate) fn len(&self) -> u64
        ensures { result ≡ length (chars (bytes_of self.now)) }
    {
        match self {
            Characters::Few(few) => char_count(few.as_str()),
            Characters::Many(many) => many.len(),
        }
    }

    /// The text.
    pub(crate) fn as_str(&self) -> &str
        ensures { result.now ≡ bytes_of self.now }
    {
        match self {
            Characters::Few(few) => few.as_str(),
            Characters::Many(many) => many.as_str(),
        }
    }

    // Keeps the first `place` bytes, which hold `count` characters.
    fn truncate(&mut self, place: usize, count: u64)
        requires boundary { IsCharBoundary (bytes_of self.old) place }
        requires counted { count ≡ length (chars (take place (bytes_of self.old))) }
        ensures { bytes_of self.new ≡ take place (bytes_of self.old) }
    {
        match self {
            Characters::Few(few) => few.truncate(place),
            Characters::Many(many) => many.truncate(place, count),
        }
    }

    /// Keeps the first `place` bytes, which hold `count` characters, and returns the rest.
    ///
    /// Returns `OutOfMemory` where there is no room for the rest, and then the text is as it was.
    pub(crate) fn split_off(
        &mut self,
        alloc: Global,
        place: usize,
        count: u64,
    ) -> Result<Characters, OutOfMemory>
        requires boundary { IsCharBoundary (bytes_of self.old) place }
        requires counted { count ≡ length (chars (take place (bytes_of self.old))) }
        ensures front { OnOk result (bytes_of self.new ≡ take place (bytes_of self.old)) }
        ensures rear { IfOk result (λ rest. bytes_of rest ≡ drop place (bytes_of self.old)) }
        ensures err { OnErr result (bytes_of self.new ≡ bytes_of self.old) }
    {
        let rest = Characters::new(alloc, &self.as_str()[place..])?;
        self.truncate(place, count);
        Ok(rest)
    }

    /// Adds text of `count` characters at the end.
    ///
    /// Returns `OutOfMemory` where there is no room for it, and then the text is as it was.
    pub(crate) fn push_str(
        &mut self,
        alloc: Global,
        text: &str,
        count: u64,
    ) -> Result<(), OutOfMemory>
        requires counted { count ≡ length (chars text.now) }
        requires fits { length (chars (bytes_of self.old)) + count ≤ longest_run }
        ensures ok { OnOk result (bytes_of self.new ≡ bytes_of self.old ++ text.now) }
        ensures err { OnErr result (bytes_of self.new ≡ bytes_of self.old) }
    {
        match self {
            Characters::Few(few) => {
                let grown = grown(alloc, few, text, count)?;
                if let Some(many) = grown {
                    *self = Characters::Many(many);
                }
                Ok(())
            }
            Characters::Many(many) => many.push_str(text, count),
        }
    }
}

// Adds text of `count` characters at the end in place, or returns both in memory of their own.
fn grown(
    alloc: Global,
    few: &mut ArrayString<IN_PLACE>,
    text: &str,
    count: u64,
) -> Result<Option<Box<LongText>>, OutOfMemory>
    requires counted { count ≡ length (chars text.now) }
    requires fits { length (chars few.old.bytes) + count ≤ longest_run }
    ensures none { IfOk result (λ grown. IfNone grown (few.new.bytes ≡ few.old.bytes ++ text.now)) }
    ensures some { IfOk result (λ grown. IfSome grown (λ many. many.value ≡ few.old.bytes ++ text.now)) }
    ensures err { OnErr result (few.new.bytes ≡ few.old.bytes) }
{
    if few.try_push_str(text).is_ok() {
        return Ok(None);
    }
    let mut many = LongText::new(alloc, few.as_str())?;
    many.push_str(text, count)?;
    Ok(Some(many))
}
