//! Runs of characters.

ghost use Rattle.std.specs.Prelude.{◌≡◌, ◌+◌, ◌≤◌, ◌<◌, ◌++◌, IfOk, OnOk, OnErr, chars, encode_utf8_all, length, take, drop};
ghost use Rattle.std.specs.Str.{IsCharBoundary};
ghost use Rattle.ft_tree_leaves.specs.TextRuns.{IsTextRun, longest_run};

use crate::characters::Characters;
use ft_base::OutOfMemory;
use std::alloc::Global;
use std::marker::Model;

/// How many characters a run may have.
pub const MAX_RUN: u64 = 256;

/// 1 to 256 characters, which contracts see as the list of them (Unicode scalar values, each by its
/// number).
#[derive(Drop)]
pub struct TextRun {
    text: Characters,
    alloc: Global,
}

impl Model for TextRun {
    ghost use Rattle.std.specs.Prelude.{List, ℕ, chars};
    ghost use Rattle.ft_tree_leaves.specs.TextRuns.{IsTextRun};

    ghost Value = { List ℕ };

    ghost use Rattle.ft_tree_leaves.specs.Characters.{bytes_of};

    ghost view = { λ a. chars (bytes_of a.text) };

    ghost invariant = { λ a. IsTextRun (chars (bytes_of a.text)) };
}

impl TextRun {
    /// A copy of the characters of `text`.
    pub fn new(alloc: Global, text: &str) -> Result<TextRun, OutOfMemory>
        requires { IsTextRun (chars text.now) }
        ensures { IfOk result (λ run. run ≡ chars text.now) }
    {
        let text = Characters::new(alloc, text)?;
        Ok(TextRun { text, alloc })
    }

    /// How many characters it has.
    pub fn len(&self) -> u64
        ensures value { result ≡ length self.now }
        ensures run { IsTextRun self.now }
    {
        self.text.len()
    }

    /// The characters, as a string slice.
    pub fn as_str(&self) -> &str
        ensures bytes { result.now ≡ encode_utf8_all self.now }
        ensures characters { chars result.now ≡ self.now }
        ensures run { IsTextRun self.now }
    {
        self.text.as_str()
    }

    /// Keeps the first `at` characters and returns the rest.
    ///
    /// Returns `OutOfMemory` where there is no room for the rest, and then the run is as it was.
    pub(crate) fn split(&mut self, at: u64) -> Result<TextRun, OutOfMemory>
        requires low { 1 ≤ at }
        requires high { at < length self.old }
        ensures front { OnOk result (self.new ≡ take at self.old) }
        ensures rear { IfOk result (λ rest. rest ≡ drop at self.old) }
        ensures err { OnErr result (self.new ≡ self.old) }
    {
        let place = byte_place(self.text.as_str(), at);
        let text = self.text.split_off(self.alloc, place, at)?;
        Ok(TextRun {
            text,
            alloc: self.alloc,
        })
    }

    /// Adds the other run's characters at the end.
    ///
    /// Returns `OutOfMemory` where there is no room for them, and then the run is as it was.
    pub(crate) fn append(&mut self, other: &TextRun) -> Result<(), OutOfMemory>
        requires { length self.old + length other.now ≤ longest_run }
        ensures ok { OnOk result (self.new ≡ self.old ++ other.now) }
        ensures err { OnErr result (self.new ≡ self.old) }
    {
        // That it holds characters is read off its contract.
        let _mine = self.text.as_str();
        self.text.push_str(self.alloc, other.as_str(), other.len())?;
        Ok(())
    }
}

// How many bytes the first `at` characters take.
fn byte_place(text: &str, at: u64) -> usize
    requires { at ≤ length (chars text.now) }
    ensures boundary { IsCharBoundary text.now result }
    ensures front { chars (take result text.now) ≡ take at (chars text.now) }
    ensures rear { chars (drop result text.now) ≡ drop at (chars text.now) }
{
    let mut rest = text.chars();
    for _ in 0..at {
        rest.next();
    }
    text.len() - rest.as_str().len()
}
