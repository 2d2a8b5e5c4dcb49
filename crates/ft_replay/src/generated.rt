//! The lines of a generated session.

ghost use Rattle.std.specs.Prelude.{◌≡◌, IfOk, IsErrOf, OnOk, string_bytes};
ghost use Rattle.ft_io.specs.Lines.{with_lf};
ghost use Rattle.ft_seqr.specs.WellFormedEvent.{IsWellFormedEvent};
ghost use Rattle.ft_replay.specs.Generated.{IsWithinLimits, event_line, generated_lines, session_events};
ghost use Rattle.ft_replay.specs.LineForm.{bytes_of};
ghost use Rattle.ft_replay.specs.Writing.{WritesBytes};

use crate::endings::{Ending, Fault};
use crate::settings::Settings;
use crate::writing::put_text;
use ft_base::OutOfMemory;
use ft_gen::Generator;
use ft_io::Sink;
use ft_seqr::{Event, write_event};
use std::alloc::Global;

/// Writes the events of the session that is generated with these settings, one a line.
///
/// Returns `Write` only where the sink's count of faults rose, and `OutOfMemory` where there is no room
/// for an event or its line.
pub fn write_generated<K: Sink>(
    alloc: Global,
    settings: Settings,
    out: &mut K,
) -> Result<Ending, Fault>
    requires { IsWithinLimits settings }
    ensures ends { IfOk result (λ ending. ending ≡ Ending.Done) }
    ensures writes { WritesBytes (K.contents out.old) (K.contents out.new) (K.faults out.old) (K.faults out.new) (bytes_of (generated_lines settings)) result }
    ensures steady { OnOk result (K.faults out.new ≡ K.faults out.old) }
    ensures kept { ¬ IsErrOf result Fault.Write → K.faults out.new ≡ K.faults out.old }
{
    let mut events = session_events(alloc, settings);
    while let Some(event) = events.next()? {
        write_line(alloc, event, out)?;
    }
    Ok(Ending::Done)
}

/// The events of the session that is generated with these settings. It takes no memory.
#[tactic(auto, unfolding(crate::specs::Generated::session_events))]
pub fn session_events(alloc: Global, settings: Settings) -> Generator
    requires { IsWithinLimits settings }
    ensures { result ≡ session_events settings }
{
    Generator::new(alloc, settings.clients, settings.edits, settings.seed)
}

// Writes the line of an event.
fn write_line<K: Sink>(alloc: Global, event: Event, out: &mut K) -> Result<(), Fault>
    requires { IsWellFormedEvent event }
    ensures writes { WritesBytes (K.contents out.old) (K.contents out.new) (K.faults out.old) (K.faults out.new) (with_lf (event_line event)) result }
    ensures steady { OnOk result (K.faults out.new ≡ K.faults out.old) }
    ensures kept { ¬ IsErrOf result Fault.Write → K.faults out.new ≡ K.faults out.old }
{
    put_text(out, line_of(alloc, event))
}

// The line of an event that is done with, with its LF.
fn line_of(alloc: Global, event: Event) -> Result<String, OutOfMemory>
    requires { IsWellFormedEvent event }
    ensures { IfOk result (λ text. string_bytes text ≡ with_lf (event_line event)) }
{
    let line = line_text(alloc, &event);
    drop(event);
    line
}

// The line of an event, with its LF.
fn line_text(alloc: Global, event: &Event) -> Result<String, OutOfMemory>
    requires { IsWellFormedEvent event.now }
    ensures { IfOk result (λ text. string_bytes text ≡ with_lf (event_line event.now)) }
{
    let value = write_event(alloc, event)?;
    let line = value.as_str();
    Ok(format!(in alloc; "{line}\n")?)
}
