//! The first line of a client's view, and what else begins so.

ghost use Rattle.std.specs.Prelude.{◌≡◌, ◌++◌, OnOk, string_bytes};
ghost use Rattle.ft_io.specs.Lines.{with_lf};
ghost use Rattle.ft_replay.specs.Heads.{written_client, written_counts, written_head};
ghost use Rattle.ft_seqr.specs.SessionReport.{link_word};

use crate::view_lines::push_quoted;
use ft_base::{OutOfMemory, Text};
use ft_msg::{Link, Numbers};
use std::alloc::Global;
use std::fmt::Write;

/// Adds the first line of the view of the client of this name, with its LF.
pub fn push_head(
    alloc: Global,
    text: &mut String,
    name: &Text,
    numbers: Numbers,
) -> Result<(), OutOfMemory>
    ensures { OnOk result (string_bytes text.new ≡ string_bytes text.old ++ with_lf (written_head name.now numbers)) }
{
    push_name(alloc, text, name)?;
    text.push(' ')?;
    text.push_str(link_word(numbers.link))?;
    push_counts(text, numbers)?;
    Ok(text.push('\n')?)
}

/// Adds the name of a client, behind its word.
pub fn push_name(alloc: Global, text: &mut String, name: &Text) -> Result<(), OutOfMemory>
    ensures { OnOk result (string_bytes text.new ≡ string_bytes text.old ++ written_client name.now) }
{
    text.push_str("client ")?;
    push_quoted(alloc, text, name)
}

/// Adds the numbers of a client, each behind its word.
pub fn push_counts(text: &mut String, numbers: Numbers) -> Result<(), OutOfMemory>
    ensures { OnOk result (string_bytes text.new ≡ string_bytes text.old ++ written_counts numbers) }
{
    let seq = numbers.seq;
    let min = numbers.min;
    let pending = numbers.pending;
    Ok(write!(text, " seq {seq} min {min} pending {pending}")?)
}

// The word of a link.
fn link_word(link: Link) -> &'static str
    ensures { result.now ≡ link_word link }
{
    match link {
        Link::Offline => "offline",
        Link::Joining { .. } => "joining",
        Link::Online { .. } => "online",
    }
}
