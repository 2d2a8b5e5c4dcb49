//! Text with the number of its characters.

ghost use Rattle.std.specs.Prelude.{◌≡◌, ◌+◌, ◌≤◌, ◌++◌, IfOk, OnOk, OnErr, chars, length, take};
ghost use Rattle.std.specs.Str.{IsCharBoundary};
ghost use Rattle.ft_tree_leaves.specs.TextRuns.{longest_run};

use ft_base::OutOfMemory;
use std::alloc::Global;
use std::marker::Model;

/// Text that knows how many characters it has, which contracts see as its bytes.
#[derive(Drop)]
pub(crate) struct LongText {
    text: String,
    count: u64,
}

impl Model for LongText {
    ghost use Rattle.std.specs.Prelude.{◌≡◌, List, ℕ, chars, length, string_bytes};

    ghost Value = { List ℕ };

    ghost view = { λ a. string_bytes a.text };

    ghost invariant = { λ a. a.count ≡ length (chars (string_bytes a.text)) };
}

impl LongText {
    /// A copy of `text`.
    pub(crate) fn new(alloc: Global, text: &str) -> Result<Box<LongText>, OutOfMemory>
        ensures { IfOk result (λ long. long.value ≡ text.now) }
    {
        let count = char_count(text);
        let text = String::from_str(alloc, text)?;
        Ok(Box::new(alloc, LongText { text, count })?)
    }

    /// The text.
    pub(crate) fn as_str(&self) -> &str
        ensures { result.now ≡ self.now }
    {
        self.text.as_str()
    }

    /// How many characters it has.
    pub(crate) fn len(&self) -> u64
        ensures { result ≡ length (chars self.now) }
    {
        self.count
    }

    /// Keeps the first `place` bytes, which hold `count` characters.
    pub(crate) fn truncate(&mut self, place: usize, count: u64)
        requires boundary { IsCharBoundary self.old place }
        requires counted { count ≡ length (chars (take place self.old)) }
        ensures { self.new ≡ take place self.old }
    {
        self.text.truncate(place);
        self.count = count;
    }

    /// Adds text of `count` characters at the end.
    ///
    /// Returns `OutOfMemory` where there is no room for it, and then the text is as it was.
    pub(crate) fn push_str(&mut self, text: &str, count: u64) -> Result<(), OutOfMemory>
        requires counted { count ≡ length (chars text.now) }
        requires fits { length (chars self.old) + count ≤ longest_run }
        ensures ok { OnOk result (self.new ≡ self.old ++ text.now) }
        ensures err { OnErr result (self.new ≡ self.old) }
    {
        self.text.push_str(text)?;
        self.count += count;
        Ok(())
    }
}

/// How many characters the text has.
pub(crate) fn char_count(text: &str) -> u64
    ensures { result ≡ length (chars text.now) }
{
    text.chars().count() as u64
}
