//! The lines that an event of a map session writes.

ghost use Rattle.std.specs.Prelude.{◌≡◌, ◌++◌, None, IfOk, OnOk, map, string_bytes};
ghost use Rattle.ft_io.specs.Lines.{with_lf};
ghost use Rattle.ft_shared_map.specs.Maps.{entry_of, map_of};
ghost use Rattle.ft_map.specs.MapReport.{entry_line, output_lines, view_lines};
ghost use Rattle.ft_map.specs.MapSession.{MapOutput, NamedMapClient};
ghost use Rattle.ft_map.specs.MapWorlds.{IsViewOf, Tells};
ghost use Rattle.ft_replay.specs.LineForm.{bytes_of};
ghost use Rattle.ft_replay.specs.Listening.{told_refusal, told_text};

use crate::heads::push_head;
use crate::listener::Told;
use crate::view_lines::push_quoted;
use ft_base::moved::after;
use ft_base::{OutOfMemory, Text};
use ft_json::ValText;
use ft_map::{MapOut, MapPair};
use ft_msg::Numbers;
use std::alloc::Global;
use std::fmt::Write;

/// What is told of an event that writes this: nothing, the lines of a client's view, or the line of its summary. Each line has its LF.
pub fn told_map_output(alloc: Global, out: &MapOut) -> Result<Told, OutOfMemory>
    ensures text { (output : MapOutput) → Tells output out.now → IfOk result (λ told. told_text told ≡ bytes_of (output_lines output)) }
    ensures taken { IfOk result (λ told. told_refusal told ≡ None) }
{
    match out {
        MapOut::Nothing => Ok(Told::Nothing),
        MapOut::View {
            name,
            numbers,
            pairs,
        } => {
            let text = view_text(alloc, name, *numbers, pairs.as_slice())?;
            Ok(Told::Text(text))
        }
        MapOut::Summary(value) => {
            let text = value_text(alloc, value)?;
            Ok(Told::Text(text))
        }
    }
}

// The lines of the view of the client of this name, each with its LF.
fn view_text(
    alloc: Global,
    name: &Text,
    numbers: Numbers,
    pairs: &[MapPair],
) -> Result<String, OutOfMemory>
    ensures { (c : NamedMapClient) → IsViewOf c name.now numbers pairs.now → IfOk result (λ text. string_bytes text ≡ bytes_of (view_lines c)) }
{
    let mut text = String::new(alloc);
    let pushed = push_view(alloc, &mut text, name, numbers, pairs);
    after(pushed, text)
}

// Adds these lines.
fn push_view(
    alloc: Global,
    text: &mut String,
    name: &Text,
    numbers: Numbers,
    pairs: &[MapPair],
) -> Result<(), OutOfMemory>
    ensures { (c : NamedMapClient) → IsViewOf c name.now numbers pairs.now
        → OnOk result (string_bytes text.new ≡ string_bytes text.old ++ bytes_of (view_lines c)) }
{
    push_head(alloc, text, name, numbers)?;
    push_entries(alloc, text, pairs)
}

// Adds the lines of the entries.
fn push_entries(alloc: Global, text: &mut String, pairs: &[MapPair]) -> Result<(), OutOfMemory>
    ensures { OnOk result (string_bytes text.new ≡ string_bytes text.old ++ bytes_of (map entry_line (map_of pairs.now))) }
{
    for pair in pairs {
        push_entry(alloc, text, pair)?;
    }
    Ok(())
}

// Adds the line of an entry.
fn push_entry(alloc: Global, text: &mut String, pair: &MapPair) -> Result<(), OutOfMemory>
    ensures { OnOk result (string_bytes text.new ≡ string_bytes text.old ++ with_lf (entry_line (entry_of pair.now))) }
{
    text.push_str("entry ")?;
    push_quoted(alloc, text, &pair.key)?;
    let value = pair.value.as_str();
    Ok(write!(text, " {value}\n")?)
}

// The line of a value, with its LF.
fn value_text(alloc: Global, value: &ValText) -> Result<String, OutOfMemory>
    ensures { IfOk result (λ text. string_bytes text ≡ with_lf value.now) }
{
    let line = value.as_str();
    Ok(format!(in alloc; "{line}\n")?)
}
