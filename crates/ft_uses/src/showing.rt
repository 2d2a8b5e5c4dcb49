//! What an editor shows.

use crate::editor::Editor;
use crate::faults::Fault;
use ft_changes::Telling;
use ft_msg::{Numbers, View};
use ft_plain_lists::Content;
use ft_shown::Shown;
use ft_sumdoc::IntervalRec;
use std::alloc::Global;
use std::fmt::Write;

/// Writes a line of what the editor shows: the number of the last message, how many edits are pending,
/// the text, and the notes on it.
///
/// Returns `Differs` where it isn't what the client has.
pub fn show<R: Telling + Drop>(
    alloc: Global,
    out: &mut String,
    name: &str,
    editor: &Editor<R>,
) -> Result<(), Fault> {
    let view = editor.client.view()?;
    let written = write_shown(alloc, out, name, &view, &editor.shown);
    drop(view);
    written
}

// Writes the line of what is shown, if it is what the view has.
fn write_shown(
    alloc: Global,
    out: &mut String,
    name: &str,
    view: &View,
    shown: &Shown,
) -> Result<(), Fault> {
    let mut line = String::new(alloc);
    write_elements(&mut line, shown)?;
    write_notes(&mut line, shown.intervals())?;
    let mut viewed = String::new(alloc);
    viewed.push_str(view.text.as_str())?;
    write_notes(&mut viewed, view.intervals.as_slice())?;
    if line.as_str() != viewed.as_str() {
        return Err(Fault::Differs);
    }
    write_head(out, name, view.numbers)?;
    out.push_str(line.as_str())?;
    Ok(())
}

// Writes who shows it, and how far that client is.
fn write_head(out: &mut String, name: &str, numbers: Numbers) -> Result<(), Fault> {
    write!(
        out,
        "{name} at {}, {} pending: ",
        numbers.seq, numbers.pending
    )?;
    Ok(())
}

// Writes the characters.
fn write_elements(out: &mut String, shown: &Shown) -> Result<(), Fault> {
    for element in shown.elements() {
        if let Content::Character(character) = element.content() {
            out.push(character)?;
        }
    }
    Ok(())
}

// Writes the notes, and ends the line.
fn write_notes(out: &mut String, notes: &[IntervalRec]) -> Result<(), Fault> {
    for note in notes {
        write_note(out, note)?;
    }
    out.push('\n')?;
    Ok(())
}

// Writes a note.
fn write_note(out: &mut String, note: &IntervalRec) -> Result<(), Fault> {
    let id = note.id.as_str();
    write!(out, " [{id} from {} to {}]", note.ends.start, note.ends.end)?;
    Ok(())
}
