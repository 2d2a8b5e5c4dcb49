//! The lines of an input, one after another: what hears them, and what is written of them.

ghost use Rattle.std.specs.Prelude.{◌≡◌, ℕ, ◌+◌, ◌-◌, ◌<◌, ◌≤◌, ◌^◌, List, [], Ok, IfOk, IsErrOf, OnOk, None, Some, if◌then◌else◌, nat_lt, string_bytes};
ghost use Rattle.ft_io.specs.Reader.{input_limit};
ghost use Rattle.ft_seqr.specs.Walk.{Progress, after_item, is_blank, line_limit, refused_after, written_by_item};
ghost use Rattle.ft_replay.specs.declared.listener.Told.{Told};
ghost use Rattle.ft_replay.specs.LineForm.{bytes_of, form_end, form_ending, form_step};
ghost use Rattle.ft_replay.specs.Listening.{Follows, HandsOut, IsHandedOut, IsStep, told_bytes, told_refusal, told_text};
ghost use Rattle.ft_replay.specs.Writing.{WritesBytes};

use crate::endings::{Ending, Fault};
use crate::listener::{LINE_LIMIT, Listener, Told};
use crate::refusals::refused_line;
use crate::report::{last_ending, push_last};
use crate::writing::{put, put_text};
use ft_base::OutOfMemory;
use ft_io::{Line, Sink};
use ft_seqr::Refusal;
use std::alloc::Global;

/// Gives the listener one line more, as a reader of lines hands it out, behind so many lines, of which so many were refused, and writes
/// what is told of it. Returns how many are refused then.
///
/// Returns `Write` only where the sink's count of faults rose, and `OutOfMemory` where there is no room for what the line makes
/// or for the refusal; nothing is said of the listener then.
pub fn hear_read<L: Listener, K: Sink>(
    alloc: Global,
    lines: u64,
    refused: u64,
    listener: &mut L,
    line: &Line,
    out: &mut K,
) -> Result<u64, Fault>
    requires few { lines ≤ input_limit }
    requires counted { refused ≤ lines }
    requires sized { L.size listener.old ≤ input_limit + lines }
    requires handed { IsHandedOut line.now }
    ensures after { (text : List ℕ) (at : Progress L.Made) → HandsOut L.form at.made text line.now → Follows (L.holds listener.old) lines refused at
        → IfOk result (λ n. Follows (L.holds listener.new) (lines + 1) n (after_item (form_step L.form) at text)) }
    ensures counted { IfOk result (λ n. n ≤ lines + 1) }
    ensures sized { L.size listener.new ≤ input_limit + (lines + 1) }
    ensures writes { (text : List ℕ) (at : Progress L.Made) → HandsOut L.form at.made text line.now → Follows (L.holds listener.old) lines refused at
        → WritesBytes (K.contents out.old) (K.contents out.new) (K.faults out.old) (K.faults out.new) (bytes_of (written_by_item (form_step L.form) at text)) result }
    ensures steady { OnOk result (K.faults out.new ≡ K.faults out.old) }
    ensures kept { ¬ IsErrOf result Fault.Write → K.faults out.new ≡ K.faults out.old }
{
    let told = hear(listener, line);
    write_heard(alloc, lines + 1, refused, &told, out)
}

/// The same for a line that is given without its LF.
pub fn hear_line<L: Listener, K: Sink>(
    alloc: Global,
    lines: u64,
    refused: u64,
    listener: &mut L,
    line: &[u8],
    out: &mut K,
) -> Result<u64, Fault>
    requires few { lines ≤ input_limit }
    requires counted { refused ≤ lines }
    requires sized { L.size listener.old ≤ input_limit + lines }
    ensures after { (at : Progress L.Made) → Follows (L.holds listener.old) lines refused at
        → IfOk result (λ n. Follows (L.holds listener.new) (lines + 1) n (after_item (form_step L.form) at line.now)) }
    ensures counted { IfOk result (λ n. n ≤ lines + 1) }
    ensures writes { (at : Progress L.Made) → Follows (L.holds listener.old) lines refused at
        → WritesBytes (K.contents out.old) (K.contents out.new) (K.faults out.old) (K.faults out.new) (bytes_of (written_by_item (form_step L.form) at line.now)) result }
    ensures steady { OnOk result (K.faults out.new ≡ K.faults out.old) }
    ensures kept { ¬ IsErrOf result Fault.Write → K.faults out.new ≡ K.faults out.old }
{
    let told = hear_text(listener, line);
    write_heard(alloc, lines + 1, refused, &told, out)
}

/// Writes what stands behind the lines, of which so many were refused: what shows what was made, and the last lines. Returns
/// whether no line was refused and no sub-operation skipped.
///
/// Returns `Write` only where the sink's count of faults rose, and `OutOfMemory` where there is no room for the lines.
pub fn close_lines<L: Listener, K: Sink>(
    refused: u64,
    listener: &L,
    out: &mut K,
) -> Result<Ending, Fault>
    ensures ending { (lines : ℕ) (at : Progress L.Made) → Follows (L.holds listener.now) lines refused at → IfOk result (λ ending. ending ≡ form_ending L.form at) }
    ensures writes { (lines : ℕ) (at : Progress L.Made) → Follows (L.holds listener.now) lines refused at
        → WritesBytes (K.contents out.old) (K.contents out.new) (K.faults out.old) (K.faults out.new) (bytes_of (form_end L.form at)) result }
    ensures steady { OnOk result (K.faults out.new ≡ K.faults out.old) }
    ensures kept { ¬ IsErrOf result Fault.Write → K.faults out.new ≡ K.faults out.old }
{
    put_text(out, end_text(refused, listener))?;
    Ok(last_ending(refused, listener.counts()))
}

// What stands behind the lines, of which so many were refused.
fn end_text<L: Listener>(refused: u64, listener: &L) -> Result<String, OutOfMemory>
    ensures { (lines : ℕ) (at : Progress L.Made) → Follows (L.holds listener.now) lines refused at
        → IfOk result (λ text. string_bytes text ≡ bytes_of (form_end L.form at)) }
{
    let mut text = listener.view_text()?;
    push_last(&mut text, refused, listener.counts())?;
    Ok(text)
}

// Gives the listener a line, and returns what is told of it.
fn hear<L: Listener>(listener: &mut L, line: &Line) -> Result<Told, OutOfMemory>
    requires few { L.size listener.old < 2 ^ 32 - 1 }
    requires handed { IsHandedOut line.now }
    ensures step { (text : List ℕ) (made : L.Made) → HandsOut L.form made text line.now → L.holds listener.old made
        → IfOk result (λ told. IsStep (L.holds listener.new) told (form_step L.form made text)) }
    ensures size { L.size listener.new ≤ L.size listener.old + 1 }
{
    match line {
        Line::Full(text) => hear_text(listener, text.as_slice()),
        Line::TooLong => Ok(Told::Refused(Refusal::LineTooLong)),
        Line::End => unreachable!(),
    }
}

// Gives the listener a line that is whole, and returns what is told of it.
fn hear_text<L: Listener>(listener: &mut L, line: &[u8]) -> Result<Told, OutOfMemory>
    requires few { L.size listener.old < 2 ^ 32 - 1 }
    ensures step { (made : L.Made) → L.holds listener.old made
        → IfOk result (λ told. IsStep (L.holds listener.new) told (form_step L.form made line.now)) }
    ensures size { L.size listener.new ≤ L.size listener.old + 1 }
{
    if is_blank(line) {
        return Ok(pass(line.len()));
    }
    if line.len() > listener.limit() {
        return Ok(Told::Refused(Refusal::LineTooLong));
    }
    listener.take(line)
}

// What is told of a blank line of this length.
fn pass(length: usize) -> Told
    ensures refusal { told_refusal result ≡ (if nat_lt line_limit length then Some Refusal.LineTooLong else None) }
    ensures silent { told_text result ≡ [] }
{
    if length > LINE_LIMIT {
        Told::Refused(Refusal::LineTooLong)
    } else {
        Told::Nothing
    }
}

// How many lines more are refused with one of which this is told.
fn refusals(told: &Told) -> u64
    ensures after { (n : ℕ) → n + result ≡ refused_after n (told_refusal told.now) }
    ensures one { result ≤ 1 }
{
    match told {
        Told::Refused(_) => 1,
        Told::Nothing | Told::Text(_) => 0,
    }
}

// Writes what is told of the line with this number, before which so many were refused. Returns how many are refused with it.
//
// Returns `OutOfMemory` also where nothing is told of it for want of memory.
fn write_heard<K: Sink>(
    alloc: Global,
    line: u64,
    refused: u64,
    heard: &Result<Told, OutOfMemory>,
    out: &mut K,
) -> Result<u64, Fault>
    requires { refused < line }
    ensures count { IfOk result (λ n. (told : Told) × (heard.now ≡ Ok told) × (n ≡ refused_after refused (told_refusal told))) }
    ensures counted { IfOk result (λ n. n ≤ line) }
    ensures writes { (bytes : List ℕ) → IfOk heard.now (λ told. bytes ≡ told_bytes line told)
        → WritesBytes (K.contents out.old) (K.contents out.new) (K.faults out.old) (K.faults out.new) bytes result }
    ensures steady { OnOk result (K.faults out.new ≡ K.faults out.old) }
    ensures kept { ¬ IsErrOf result Fault.Write → K.faults out.new ≡ K.faults out.old }
{
    match heard {
        Ok(told) => {
            write_told(alloc, line, told, out)?;
            Ok(refused + refusals(told))
        }
        Err(_) => Err(Fault::OutOfMemory),
    }
}

// Writes what is told of the line with this number.
fn write_told<K: Sink>(alloc: Global, line: u64, told: &Told, out: &mut K) -> Result<(), Fault>
    ensures writes { WritesBytes (K.contents out.old) (K.contents out.new) (K.faults out.old) (K.faults out.new) (told_bytes line told.now) result }
    ensures steady { OnOk result (K.faults out.new ≡ K.faults out.old) }
    ensures kept { ¬ IsErrOf result Fault.Write → K.faults out.new ≡ K.faults out.old }
{
    match told {
        Told::Nothing => Ok(()),
        Told::Text(text) => put(out, text.as_bytes()),
        Told::Refused(refusal) => put_text(out, refused_line(alloc, line, *refusal)),
    }
}

// Whether the line has only spaces, tabs and CR.
fn is_blank(line: &[u8]) -> bool
    ensures { result ≡ is_blank line.now }
{
    line.iter()
        .all(|byte| *byte == b' ' || *byte == b'\t' || *byte == b'\r')
}
