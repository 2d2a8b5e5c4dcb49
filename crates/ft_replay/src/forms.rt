//! The commands that read lines.

ghost use Rattle.std.specs.Prelude.{◌≡◌, ℕ, ◌≤◌, None, IsErrOf, OnOk};
ghost use Rattle.std.specs.Io.KnownBytes.{IsAtEnd};
ghost use Rattle.ft_io.specs.Reader.{Call, input_limit, new_reader};
ghost use Rattle.ft_io.specs.Streams.{Rose};
ghost use Rattle.ft_seqr.specs.Walk.{line_limit};
ghost use Rattle.ft_replay.specs.Forms.{load_account, log_account, map_account, session_account};
ghost use Rattle.ft_replay.specs.LineForm.{account_by};
ghost use Rattle.ft_replay.specs.Listening.{Follows};
ghost use Rattle.ft_replay.specs.Run.{Moves, Says, SaysOfLines};

use crate::endings::{Ending, Fault};
use crate::listener::{LINE_LIMIT, Listener};
use crate::loading::LoadRun;
use crate::maps::MapRun;
use crate::observer::Observer;
use crate::replay::{close_lines, hear_read};
use crate::session::SessionRun;
use ft_io::{Line, LineFault, Lines, Sink, Source};
use ft_laws_sessions::worlds::reports_are_one;
use ft_msg::Replica;
use std::alloc::Global;

/// Reads the events of a session, one a line, and writes what each of them writes. Its clients are such replicas.
///
/// Returns how the report ends: `Done` where no line was refused and no sub-operation skipped. Returns `Read` and `Write` only where
/// the count of faults of the source or the sink rose, `InputLimit` exactly where the source gave a 16,777,217th byte and no write
/// failed before, and `OutOfMemory` where no memory was found; the bytes written then begin the report, or what the ended lines write.
pub fn replay_session<R: Replica + Drop, S: Source, K: Sink>(
    alloc: Global,
    src: &mut S,
    out: &mut K,
) -> Result<Ending, Fault>
    ensures run { Moves (S.remaining src.old) (S.remaining src.new) (K.contents out.old) (K.contents out.new)
        (Says session_account (IsAtEnd (S.remaining src.new)) (Rose (S.faults src.old) (S.faults src.new))
        (Rose (K.faults out.old) (K.faults out.new)) result) }
    ensures steady { OnOk result ((S.faults src.new ≡ S.faults src.old) × (K.faults out.new ≡ K.faults out.old)) }
    ensures source_kept { ¬ IsErrOf result Fault.Read → S.faults src.new ≡ S.faults src.old }
    ensures sink_kept { ¬ IsErrOf result Fault.Write → K.faults out.new ≡ K.faults out.old }
{
    reports_are_one();
    replay_lines::<SessionRun<R>, S, K>(alloc, src, out)
}

/// Reads sequenced messages, one a line, and writes which of them are refused and what one observer of them shows at the end. The observer
/// is a replica that is offline and never edits.
///
/// Returns as `replay_session` does.
pub fn replay_log<R: Replica + Drop, S: Source, K: Sink>(
    alloc: Global,
    src: &mut S,
    out: &mut K,
) -> Result<Ending, Fault>
    ensures run { Moves (S.remaining src.old) (S.remaining src.new) (K.contents out.old) (K.contents out.new)
        (Says log_account (IsAtEnd (S.remaining src.new)) (Rose (S.faults src.old) (S.faults src.new))
        (Rose (K.faults out.old) (K.faults out.new)) result) }
    ensures steady { OnOk result ((S.faults src.new ≡ S.faults src.old) × (K.faults out.new ≡ K.faults out.old)) }
    ensures source_kept { ¬ IsErrOf result Fault.Read → S.faults src.new ≡ S.faults src.old }
    ensures sink_kept { ¬ IsErrOf result Fault.Write → K.faults out.new ≡ K.faults out.old }
{
    replay_lines::<Observer<R>, S, K>(alloc, src, out)
}

/// Reads a summary, then sequenced messages, one a line, and writes which lines are refused and what an observer shows at the end that
/// starts from the summary.
///
/// Returns as `replay_session` does.
pub fn replay_load<R: Replica + Drop, S: Source, K: Sink>(
    alloc: Global,
    src: &mut S,
    out: &mut K,
) -> Result<Ending, Fault>
    ensures run { Moves (S.remaining src.old) (S.remaining src.new) (K.contents out.old) (K.contents out.new)
        (Says load_account (IsAtEnd (S.remaining src.new)) (Rose (S.faults src.old) (S.faults src.new))
        (Rose (K.faults out.old) (K.faults out.new)) result) }
    ensures steady { OnOk result ((S.faults src.new ≡ S.faults src.old) × (K.faults out.new ≡ K.faults out.old)) }
    ensures source_kept { ¬ IsErrOf result Fault.Read → S.faults src.new ≡ S.faults src.old }
    ensures sink_kept { ¬ IsErrOf result Fault.Write → K.faults out.new ≡ K.faults out.old }
{
    replay_lines::<LoadRun<R>, S, K>(alloc, src, out)
}

/// Reads the events of a session of clients over one shared map, one a line, and writes what each of them writes.
///
/// Returns as `replay_session` does; no sub-operations are counted.
pub fn replay_map<S: Source, K: Sink>(
    alloc: Global,
    src: &mut S,
    out: &mut K,
) -> Result<Ending, Fault>
    ensures run { Moves (S.remaining src.old) (S.remaining src.new) (K.contents out.old) (K.contents out.new)
        (Says map_account (IsAtEnd (S.remaining src.new)) (Rose (S.faults src.old) (S.faults src.new))
        (Rose (K.faults out.old) (K.faults out.new)) result) }
    ensures steady { OnOk result ((S.faults src.new ≡ S.faults src.old) × (K.faults out.new ≡ K.faults out.old)) }
    ensures source_kept { ¬ IsErrOf result Fault.Read → S.faults src.new ≡ S.faults src.old }
    ensures sink_kept { ¬ IsErrOf result Fault.Write → K.faults out.new ≡ K.faults out.old }
{
    replay_lines::<MapRun, S, K>(alloc, src, out)
}

// Reads the lines of a command to the end of the source, and writes its report to the sink, line by line as it reads.
fn replay_lines<L: Listener, S: Source, K: Sink>(
    alloc: Global,
    src: &mut S,
    out: &mut K,
) -> Result<Ending, Fault>
    ensures run { Moves (S.remaining src.old) (S.remaining src.new) (K.contents out.old) (K.contents out.new)
        (Says (account_by L.form) (IsAtEnd (S.remaining src.new)) (Rose (S.faults src.old) (S.faults src.new))
        (Rose (K.faults out.old) (K.faults out.new)) result) }
    ensures steady { OnOk result ((S.faults src.new ≡ S.faults src.old) × (K.faults out.new ≡ K.faults out.old)) }
    ensures source_kept { ¬ IsErrOf result Fault.Read → S.faults src.new ≡ S.faults src.old }
    ensures sink_kept { ¬ IsErrOf result Fault.Write → K.faults out.new ≡ K.faults out.old }
{
    let mut listener = L::start(alloc)?;
    let mut lines = Lines::new(alloc, LINE_LIMIT)?;
    report_lines(alloc, &mut lines, &mut listener, src, out)
}

// The same with a reader of lines and a listener, both before the first line.
fn report_lines<L: Listener, S: Source, K: Sink>(
    alloc: Global,
    lines: &mut Lines,
    listener: &mut L,
    src: &mut S,
    out: &mut K,
) -> Result<Ending, Fault>
    requires new { lines.old ≡ new_reader line_limit }
    requires first { L.holds listener.old L.form.first }
    requires sized { L.size listener.old ≤ input_limit }
    ensures run { Moves (S.remaining src.old) (S.remaining src.new) (K.contents out.old) (K.contents out.new)
        (Says (account_by L.form) (IsAtEnd (S.remaining src.new)) (Rose (S.faults src.old) (S.faults src.new))
        (Rose (K.faults out.old) (K.faults out.new)) result) }
    ensures steady { OnOk result ((S.faults src.new ≡ S.faults src.old) × (K.faults out.new ≡ K.faults out.old)) }
    ensures source_kept { ¬ IsErrOf result Fault.Read → S.faults src.new ≡ S.faults src.old }
    ensures sink_kept { ¬ IsErrOf result Fault.Write → K.faults out.new ≡ K.faults out.old }
{
    let refused = read_lines(alloc, lines, listener, src, out)?;
    close_lines(refused, listener, out)
}

// Reads the lines of a command, and writes what each of them writes. Returns how many of them were refused.
fn read_lines<L: Listener, S: Source, K: Sink>(
    alloc: Global,
    lines: &mut Lines,
    listener: &mut L,
    src: &mut S,
    out: &mut K,
) -> Result<u64, Fault>
    requires new { lines.old ≡ new_reader line_limit }
    requires first { L.holds listener.old L.form.first }
    requires sized { L.size listener.old ≤ input_limit }
    ensures run { Moves (S.remaining src.old) (S.remaining src.new) (K.contents out.old) (K.contents out.new)
        (SaysOfLines L.form (λ refused at. (count : ℕ) × Follows (L.holds listener.new) count refused at) (S.remaining src.new)
        (Rose (S.faults src.old) (S.faults src.new)) (Rose (K.faults out.old) (K.faults out.new)) result) }
    ensures source_later { S.faults src.old ≤ S.faults src.new }
    ensures sink_later { K.faults out.old ≤ K.faults out.new }
    ensures source_steady { OnOk result (S.faults src.new ≡ S.faults src.old) }
    ensures sink_steady { OnOk result (K.faults out.new ≡ K.faults out.old) }
    ensures source_kept { ¬ IsErrOf result Fault.Read → S.faults src.new ≡ S.faults src.old }
    ensures sink_kept { ¬ IsErrOf result Fault.Write → K.faults out.new ≡ K.faults out.old }
{
    let mut count = 0;
    let mut refused = 0;
    'walk: loop {
        match next_line(lines, listener, src)? {
            Line::End => return Ok(refused),
            line => refused = hear_read(alloc, count, refused, listener, &line, out)?,
        }
        count += 1;
    }
}

// The next line, which may be as long as the lines before it allow.
fn next_line<L: Listener, S: Source>(
    lines: &mut Lines,
    listener: &L,
    src: &mut S,
) -> Result<Line, LineFault>
    ensures call { (made : L.Made) → L.holds listener.now made → lines.old.fault ≡ None
        → Call (record lines.old { limit = L.form.longest made }) lines.new (S.remaining src.old) (S.remaining src.new) (S.faults src.old) (S.faults src.new) result }
    ensures least { (made : L.Made) → L.holds listener.now made → line_limit ≤ L.form.longest made }
    ensures most { (made : L.Made) → L.holds listener.now made → L.form.longest made ≤ input_limit }
    ensures steady { OnOk result (S.faults src.new ≡ S.faults src.old) }
    ensures kept { ¬ IsErrOf result LineFault.Read → S.faults src.new ≡ S.faults src.old }
{
    lines.set_limit(listener.limit());
    lines.next(src)
}
