//! A run: what the arguments ask for.

ghost use Rattle.std.specs.Prelude.{◌≡◌, ◌≢◌, ◌↔◌, false, None, IfSome};
ghost use Rattle.std.specs.Io.KnownBytes.{Appends};
ghost use Rattle.ft_io.specs.Streams.{Rose};
ghost use Rattle.ft_replay.specs.Run.{Moves};
ghost use Rattle.ft_cli.specs.Words.{form_of, reads_input, texts_of};
ghost use Rattle.ft_cli.specs.Report.{report};
ghost use Rattle.ft_cli.specs.Run.{EndsWhole, EndsWholeOrWanting, IsUndisturbed, SaysForWords};
ghost use Rattle.ft_cli.specs.Statuses.{end_status};

use crate::statuses::Status;
use crate::words::{Form, read_words};
use ft_client::Client;
use ft_io::{Sink, Source};
use ft_replay::{
    Ending, Fault, replay_load, replay_log, replay_map, replay_session, write_generated, write_play,
};
use std::alloc::Global;

/// Does what the arguments ask for: reads the source to its end, and writes the report to the sink, line by
/// line as it reads. `gen` and `play` read nothing, and the input counts as read to its end.
///
/// Returns `Usage` exactly where the arguments are of no command, and then nothing is read or written; else
/// `Done` or `SomeRefused` where the report is whole, `ReadFault` and `WriteFault` only where the count
/// of faults of the source or the sink rose, `InputLimit` exactly where the source gave a 16,777,217th
/// byte and no write failed before, and `OutOfMemory` where no memory was found. The first fault ends
/// the run: no read failed but where it returns `ReadFault`, and no write but where it returns `WriteFault`. Where
/// a fault ended it, the bytes written begin the report, or what the ended lines write.
pub fn run<S: Source, K: Sink>(
    alloc: Global,
    words: &Vec<String>,
    src: &mut S,
    out: &mut K,
) -> Status
    // The whole report of the whole input.
    ensures report { IfSome (S.remaining src.old) (λ input. EndsWhole result
        → Appends (K.contents out.old) (K.contents out.new) (report (texts_of words.now.items) input)) }

    // What each status says of the bytes that were read and written.
    ensures moves { Moves (S.remaining src.old) (S.remaining src.new) (K.contents out.old) (K.contents out.new)
        (SaysForWords (form_of (texts_of words.now.items)) (S.remaining src.new)
        (Rose (S.faults src.old) (S.faults src.new)) (Rose (K.faults out.old) (K.faults out.new)) result) }
    ensures usage { (result ≡ Status.Usage) ↔ (form_of (texts_of words.now.items) ≡ None) }
    ensures untouched { result ≡ Status.Usage → (src.new ≡ src.old) × (out.new ≡ out.old) }

    ensures unread { IfSome (form_of (texts_of words.now.items)) (λ form. reads_input form ≡ false → src.new ≡ src.old) }

    // Nothing but a fault ends it early.
    ensures complete { IfSome (S.remaining src.old) (λ input. IsUndisturbed (texts_of words.now.items) input
        (Rose (S.faults src.old) (S.faults src.new)) (Rose (K.faults out.old) (K.faults out.new)) → EndsWholeOrWanting result) }

    // No whole report is one of which a read or a write failed.
    ensures steady { EndsWhole result → (S.faults src.new ≡ S.faults src.old) × (K.faults out.new ≡ K.faults out.old) }

    // The first fault ends the run: no read failed but the one that `ReadFault` tells, and no write but that of `WriteFault`.
    ensures source_kept { result ≢ Status.ReadFault → S.faults src.new ≡ S.faults src.old }
    ensures sink_kept { result ≢ Status.WriteFault → K.faults out.new ≡ K.faults out.old }
{
    match read_words(words) {
        Some(Form::Log) => ended(replay_log::<Client, S, K>(alloc, src, out)),
        Some(Form::Load) => ended(replay_load::<Client, S, K>(alloc, src, out)),
        Some(Form::Map) => ended(replay_map(alloc, src, out)),
        Some(Form::Session) => ended(replay_session::<Client, S, K>(alloc, src, out)),
        Some(Form::Gen(settings)) => ended(write_generated(alloc, settings, out)),
        Some(Form::Play(settings)) => ended(write_play::<Client, K>(alloc, settings, out)),
        None => Status::Usage,
    }
}

// The status of a run that ended so.
fn ended(end: Result<Ending, Fault>) -> Status
    ensures { result ≡ end_status end }
{
    match end {
        Ok(ending) => Status::from(ending),
        Err(fault) => Status::from(fault),
    }
}
