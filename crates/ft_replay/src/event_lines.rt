//! The lines that an event writes.

ghost use Rattle.std.specs.Prelude.{◌≡◌, ◌∷◌, ◌++◌, None, IfOk, OnOk, string_bytes};
ghost use Rattle.ft_msg.specs.Content.{content};
ghost use Rattle.ft_seqr.specs.SessionReport.{as_shown, head_line, output_lines};
ghost use Rattle.ft_seqr.specs.ViewLines.{content_lines};
ghost use Rattle.ft_seqr.specs.World.{NamedClient, NaiveWorld, Output};
ghost use Rattle.ft_session.specs.Outputs.{IsViewOf, Tells};
ghost use Rattle.ft_replay.specs.LineForm.{bytes_of};
ghost use Rattle.ft_replay.specs.Listening.{told_refusal, told_text};

use crate::heads::push_head;
use crate::listener::Told;
use crate::view_lines::push_content;
use ft_base::moved::after;
use ft_base::{OutOfMemory, Text};
use ft_json::ValText;
use ft_msg::View;
use ft_session::Out;
use std::alloc::Global;

/// What is told of an event that writes this: nothing, the lines of a client's view, or values, one a
/// line. Each line has its LF.
pub fn told_output(alloc: Global, out: &Out) -> Result<Told, OutOfMemory>
    ensures text { (w : NaiveWorld) (output : Output) → Tells output out.now
        → IfOk result (λ told. told_text told ≡ bytes_of (output_lines as_shown w output)) }
    ensures taken { IfOk result (λ told. told_refusal told ≡ None) }
{
    match out {
        Out::Nothing => Ok(Told::Nothing),
        Out::View { name, view } => {
            let text = client_text(alloc, name, view)?;
            Ok(Told::Text(text))
        }
        Out::Texts(values) => {
            let text = values_text(alloc, values.as_slice())?;
            Ok(Told::Text(text))
        }
    }
}

/// The lines of the view of the client of this name, each with its LF.
pub fn client_text(alloc: Global, name: &Text, view: &View) -> Result<String, OutOfMemory>
    ensures { (c : NamedClient) → IsViewOf c name.now view.now
        → IfOk result (λ text. string_bytes text ≡ bytes_of (head_line c ∷ content_lines (content c.client))) }
{
    let mut text = String::new(alloc);
    let pushed = push_client(alloc, &mut text, name, view);
    after(pushed, text)
}

// Adds these lines.
fn push_client(
    alloc: Global,
    text: &mut String,
    name: &Text,
    view: &View,
) -> Result<(), OutOfMemory>
    ensures { (c : NamedClient) → IsViewOf c name.now view.now
        → OnOk result (string_bytes text.new ≡ string_bytes text.old ++ bytes_of (head_line c ∷ content_lines (content c.client))) }
{
    push_head(alloc, text, name, view.numbers)?;
    push_content(alloc, text, view)
}

// The values, one a line, each with its LF.
fn values_text(alloc: Global, values: &[ValText]) -> Result<String, OutOfMemory>
    ensures { IfOk result (λ text. string_bytes text ≡ bytes_of values.now) }
{
    let mut text = String::new(alloc);
    let pushed = push_values(&mut text, values);
    after(pushed, text)
}

// Adds the values, one a line.
fn push_values(text: &mut String, values: &[ValText]) -> Result<(), OutOfMemory>
    ensures { OnOk result (string_bytes text.new ≡ string_bytes text.old ++ bytes_of values.now) }
{
    for value in values {
        text.push_str(value.as_str())?;
        text.push('\n')?;
    }
    Ok(())
}
