//! The last lines of a report, and how it ends.

ghost use Rattle.std.specs.Prelude.{◌≡◌, ◌++◌, OnOk, Option, string_bytes};
ghost use Rattle.ft_op.specs.Document.{Document};
ghost use Rattle.ft_seqr.specs.SessionReport.{closing_lines};
ghost use Rattle.ft_replay.specs.LineForm.{bytes_of, last_lines, last_ending, refused_count, ending_by};
ghost use Rattle.ft_replay.specs.Listening.{counts_in, given_counts};
ghost use Rattle.ft_io.specs.Lines.{with_lf};

use crate::endings::Ending;
use ft_base::OutOfMemory;
use ft_session::Counts;
use std::fmt::Write;

/// Adds the last lines: how many lines were refused, how many sub-operations were skipped, and how many
/// messages were for others. Each has its LF.
#[tactic(auto, unfolding(ft_seqr::specs::SessionReport::closing_lines))]
pub fn push_closing(text: &mut String, refused: u64, counts: Counts) -> Result<(), OutOfMemory>
    ensures { (doc : Document) → counts ≡ counts_in doc → OnOk result (string_bytes text.new ≡ string_bytes text.old ++ bytes_of (closing_lines refused doc)) }
{
    let skipped = counts.skipped;
    let other = counts.other;
    Ok(write!(
        text,
        "refused {refused}\nskipped {skipped}\nother {other}\n"
    )?)
}

/// Adds the last lines of a command that may tell no counts. Each has its LF.
pub fn push_last(text: &mut String, refused: u64, counts: Option<Counts>) -> Result<(), OutOfMemory>
    ensures { (doc : Option Document) → counts ≡ given_counts doc → OnOk result (string_bytes text.new ≡ string_bytes text.old ++ bytes_of (last_lines refused doc)) }
{
    match counts {
        None => push_refused(text, refused),
        Some(counts) => push_closing(text, refused, counts),
    }
}

// Adds the line that tells how many lines were refused.
#[tactic(auto, unfolding(crate::specs::LineForm::refused_count))]
fn push_refused(text: &mut String, refused: u64) -> Result<(), OutOfMemory>
    ensures { OnOk result (string_bytes text.new ≡ string_bytes text.old ++ with_lf (refused_count refused)) }
{
    Ok(write!(text, "refused {refused}\n")?)
}

/// How a whole report ends: `Done` where no line was refused, and no sub-operation skipped if these are counted.
pub fn last_ending(refused: u64, counts: Option<Counts>) -> Ending
    ensures { (doc : Option Document) → counts ≡ given_counts doc → result ≡ last_ending refused doc }
{
    match counts {
        None => ending_by(refused, 0),
        Some(counts) => ending_by(refused, counts.skipped),
    }
}

/// How it ends where so many lines were refused, and so many sub-operations skipped.
pub fn ending_by(refused: u64, skipped: u64) -> Ending
    ensures { result ≡ ending_by refused skipped }
{
    if refused == 0 && skipped == 0 {
        Ending::Done
    } else {
        Ending::SomeRefused
    }
}
