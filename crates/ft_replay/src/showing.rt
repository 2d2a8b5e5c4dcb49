//! What is written of the clients that a play shows.

ghost use Rattle.std.specs.Prelude.{◌≡◌, ◌+◌, ◌∷◌, ◌++◌, ◌&&◌, List, [], Some, true, IfOk, OnOk, bytes_eq, chars, length, string_bytes, unwrap_or};
ghost use Rattle.ft_io.specs.Lines.{with_lf};
ghost use Rattle.ft_msg.specs.Answers.{view_content};
ghost use Rattle.ft_seqr.specs.World.{NamedClient};
ghost use Rattle.ft_session.specs.Outputs.{IsViewOf};
ghost use Rattle.ft_replay.specs.Play.{client_line, content_numbers, text_hash};
ghost use Rattle.ft_replay.specs.Playing.{HasShown, agrees_with, content_text};

use crate::heads::{push_counts, push_name};
use crate::sums::added;
use crate::view_lines::push_content;
use ft_base::moved::after;
use ft_base::{Datum, OutOfMemory, Text};
use ft_msg::View;
use std::alloc::Global;
use std::fmt::Write;

/// The clients that were shown: their lines, and whether they agree.
#[derive(Drop)]
pub struct Showing {
    pub lines: String,
    pub agreement: Agreement,
}

/// What the first of the clients that were shown shows, and whether all show the same.
#[derive(Drop)]
pub struct Agreement {
    pub first: Option<View>,
    pub all: bool,
}

impl Showing {
    /// No client was shown.
    pub fn new(alloc: Global) -> Showing
        ensures { HasShown result [] }
    {
        Showing {
            lines: String::new(alloc),
            agreement: Agreement {
                first: None,
                all: true,
            },
        }
    }

    /// Adds one more client, whose name and view these are.
    ///
    /// Returns `OutOfMemory` where there is no room for its line or for what it shows.
    pub fn add(&mut self, alloc: Global, name: &Text, view: View) -> Result<(), OutOfMemory>
        ensures { (shown : List NamedClient) (c : NamedClient) → HasShown self.old shown → IsViewOf c name.now view
            → OnOk result (HasShown self.new (shown ++ c ∷ [])) }
    {
        let added = self.add_line(alloc, name, &view);
        keep_first(added, &mut self.agreement.first, view)
    }

    // Adds the line of one more client, and compares what its view shows with that of the first one, if there is one.
    fn add_line(&mut self, alloc: Global, name: &Text, view: &View) -> Result<(), OutOfMemory>
        ensures lines { (c : NamedClient) → IsViewOf c name.now view.now
            → OnOk result (string_bytes self.new.lines ≡ string_bytes self.old.lines ++ with_lf (client_line c)) }
        ensures first { self.new.agreement.first ≡ self.old.agreement.first }
        ensures all { OnOk result (self.new.agreement.all ≡ agrees_with self.old.agreement view.now) }
    {
        push_client_line(alloc, &mut self.lines, name, view)?;
        self.agreement.all = self.agreement.all_with(alloc, view)?;
        Ok(())
    }
}

impl Agreement {
    // Whether all show the same, with one more that has this view.
    //
    // Returns `OutOfMemory` where there is no room for what they show.
    fn all_with(&self, alloc: Global, view: &View) -> Result<bool, OutOfMemory>
        ensures { IfOk result (λ all. all ≡ agrees_with self.now view.now) }
    {
        match &self.first {
            None => Ok(self.all),
            Some(first) => all_same(alloc, self.all, first, view),
        }
    }
}

// Keeps the value as the first one, if what was to be done before is done and there is no first one.
fn keep_first<T: Drop>(
    done: Result<(), OutOfMemory>,
    first: &mut Option<T>,
    value: T,
) -> Result<(), OutOfMemory>
    ensures done { result ≡ done }
    ensures first { OnOk result (first.new ≡ Some (unwrap_or first.old value)) }
{
    done?;
    *first = Some(first.take().unwrap_or(value));
    Ok(())
}

// Whether all showed the same, and the next one shows what the first does. What they show is written only where it isn't
// equal in each part.
fn all_same(alloc: Global, all: bool, first: &View, next: &View) -> Result<bool, OutOfMemory>
    ensures { IfOk result (λ same. same ≡ (all && bytes_eq (content_text first.now) (content_text next.now))) }
{
    if !all || has_same_content(first, next) {
        return Ok(all);
    }
    let one = content_text(alloc, first)?;
    let other = content_text(alloc, next)?;
    Ok(one.as_str() == other.as_str())
}

// Whether two views are equal but for their numbers.
fn has_same_content(first: &View, next: &View) -> bool
    ensures { result ≡ true → view_content first.now ≡ view_content next.now }
{
    first.text.same(&next.text)
        && first.markers.same(&next.markers)
        && first.runs.same(&next.runs)
        && first.intervals.same(&next.intervals)
        && first.rows == next.rows
        && first.cols == next.cols
        && first.cells.same(&next.cells)
}

// What a view shows, as it would be written.
fn content_text(alloc: Global, view: &View) -> Result<String, OutOfMemory>
    ensures { IfOk result (λ text. string_bytes text ≡ content_text view.now) }
{
    let mut text = String::new(alloc);
    let pushed = push_content(alloc, &mut text, view);
    after(pushed, text)
}

// Adds the line of a client.
#[tactic(auto, unfolding(crate::specs::Play::client_line))]
fn push_client_line(
    alloc: Global,
    text: &mut String,
    name: &Text,
    view: &View,
) -> Result<(), OutOfMemory>
    ensures { (c : NamedClient) → IsViewOf c name.now view.now
        → OnOk result (string_bytes text.new ≡ string_bytes text.old ++ with_lf (client_line c)) }
{
    push_name(alloc, text, name)?;
    push_counts(text, view.numbers)?;
    push_content_numbers(text, view)?;
    Ok(text.push('\n')?)
}

// Adds how many characters and markers a view shows, and the hash of the characters.
fn push_content_numbers(text: &mut String, view: &View) -> Result<(), OutOfMemory>
    ensures { OnOk result (string_bytes text.new ≡ string_bytes text.old ++ content_numbers (view_content view.now)) }
{
    let length = length_of(view)?;
    let hash = hash_of(&view.text);
    Ok(write!(text, " length {length} hash {hash}")?)
}

// How many characters and markers a view shows.
//
// Returns `OutOfMemory` where the sum has more than 64 bits.
fn length_of(view: &View) -> Result<u64, OutOfMemory>
    ensures { IfOk result (λ sum. sum ≡ length view.now.text + length view.now.markers) }
{
    added(char_count(&view.text), view.markers.len() as u64)
}

// How many characters the text has.
fn char_count(text: &Text) -> u64
    ensures { result ≡ length text.now }
{
    text.as_str().chars().count() as u64
}

// The hash of the characters of a text.
fn hash_of(text: &Text) -> u32
    ensures { result ≡ text_hash text.now }
{
    hash_of_characters(text.as_str())
}

// The hash of characters.
fn hash_of_characters(text: &str) -> u32
    ensures { result ≡ text_hash (chars text.now) }
{
    text.chars().fold(0, |hash, character| {
        hash.wrapping_mul(31).wrapping_add(u32::from(character))
    })
}
