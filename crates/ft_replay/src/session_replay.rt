//! A session whose lines come one after another.

ghost use Rattle.std.specs.Prelude.{◌≡◌, ℕ, ◌<◌, ◌≤◌, ◌↔◌, IsTrue, List, [], ◌∷◌, ◌++◌, IfOk, OnOk};
ghost use Rattle.ft_io.specs.Reader.{input_limit};
ghost use Rattle.ft_replay.specs.SessionReplays.{HasHeard, LinesAreCounted, LinesAreRefusedOnce, LinesGrow, ReportsEnd, end_bytes, heard_ending, heard_refused, line_bytes};
ghost use Rattle.ft_replay.specs.Writing.{WritesBytes};

use crate::endings::{Ending, Fault};
use crate::replay::{close_lines, hear_line};
use crate::session::SessionRun;
use ft_base::OutOfMemory;
use ft_base::moved::after;
use ft_io::{INPUT_LIMIT, Sink};
use ft_laws_sessions::worlds::reports_are_one;
use ft_msg::Replica;
use std::alloc::Global;

/// A session whose lines come one after another, with clients of type `R`.
///
/// What `hear` writes of one line after the other, and `close` behind them, is the report of these lines
/// (`session_pieces`). A line that has an LF within counts as one line all the same.
#[derive(Drop)]
pub struct SessionReplay<R: Replica + Drop> {
    alloc: Global,
    lines: u64,
    refused: u64,
    run: SessionRun<R>,
    ghost counted: { refused ≤ lines },
}

impl<R: Replica + Drop> SessionReplay<R> {
    /// A session before its first line.
    ///
    /// Returns `OutOfMemory` where there is no room for it.
    pub fn new(alloc: Global) -> Result<SessionReplay<R>, OutOfMemory>
        ensures { IfOk result (λ s. HasHeard s.run.world s.lines s.refused []) }
    {
        Ok(SessionReplay {
            alloc,
            lines: 0,
            refused: 0,
            run: SessionRun::new(alloc),
        })
    }

    /// Whether it has heard as many lines as it may, more than 16,777,216.
    pub fn is_full(&self) -> bool
        ensures { IsTrue result ↔ (input_limit < self.now.lines) }
    {
        self.lines > INPUT_LIMIT as u64
    }

    /// How many of the lines that it has heard were refused.
    pub fn refused(&self) -> u64
        ensures { (heard : List (List ℕ)) → HasHeard self.now.run.world self.now.lines self.now.refused heard
            → result ≡ heard_refused heard }
    {
        self.refused
    }

    /// The session with one more line, which is given without its LF, and of which is written what it writes.
    ///
    /// Returns `Write` only where the sink's count of faults rose, and `OutOfMemory` where there is no room for
    /// what the line makes or writes; then the session is gone.
    pub fn hear<K: Sink>(mut self, line: &[u8], out: &mut K) -> Result<SessionReplay<R>, Fault>
        requires few { self.lines ≤ input_limit }
        ensures after { (heard : List (List ℕ)) → HasHeard self.run.world self.lines self.refused heard
            → IfOk result (λ s. HasHeard s.run.world s.lines s.refused (heard ++ line.now ∷ [])) }
        ensures writes { (heard : List (List ℕ)) → HasHeard self.run.world self.lines self.refused heard
            → WritesBytes (K.contents out.old) (K.contents out.new) (K.faults out.old) (K.faults out.new) (line_bytes heard line.now) result }
        ensures steady { OnOk result (K.faults out.new ≡ K.faults out.old) }
    {
        let heard = self.hear_next(line, out);
        after(heard, self)
    }

    // Hears a line, which is given without its LF, and writes what it writes.
    fn hear_next<K: Sink>(&mut self, line: &[u8], out: &mut K) -> Result<(), Fault>
        requires { self.old.lines ≤ input_limit }
        ensures after { (heard : List (List ℕ)) → HasHeard self.old.run.world self.old.lines self.old.refused heard
            → OnOk result (HasHeard self.new.run.world self.new.lines self.new.refused (heard ++ line.now ∷ [])) }
        ensures writes { (heard : List (List ℕ)) → HasHeard self.old.run.world self.old.lines self.old.refused heard
            → WritesBytes (K.contents out.old) (K.contents out.new) (K.faults out.old) (K.faults out.new) (line_bytes heard line.now) result }
        ensures steady { OnOk result (K.faults out.new ≡ K.faults out.old) }
    {
        reports_are_one();
        let refused = hear_line(
            self.alloc,
            self.lines,
            self.refused,
            &mut self.run,
            line,
            out,
        )?;
        self.lines += 1;
        self.refused = refused;
        Ok(())
    }

    /// Writes what stands behind the lines. Returns whether none was refused and no sub-operation skipped.
    ///
    /// Returns `Write` only where the sink's count of faults rose, and `OutOfMemory` where there is no room for
    /// these lines.
    pub fn close<K: Sink>(self, out: &mut K) -> Result<Ending, Fault>
        ensures ending { (heard : List (List ℕ)) → HasHeard self.run.world self.lines self.refused heard
            → IfOk result (λ ending. ending ≡ heard_ending heard) }
        ensures writes { (heard : List (List ℕ)) → HasHeard self.run.world self.lines self.refused heard
            → WritesBytes (K.contents out.old) (K.contents out.new) (K.faults out.old) (K.faults out.new) (end_bytes heard) result }
        ensures steady { OnOk result (K.faults out.new ≡ K.faults out.old) }
    {
        let ending = close_lines(self.refused, &self.run, out);
        drop(self);
        ending
    }
}

/// What lines write one after another, with what stands behind them, is their report. Each line counts, and is refused or not.
pub fn session_pieces()
    ensures grow { LinesGrow }
    ensures end { ReportsEnd }
    ensures counted { LinesAreCounted }
    ensures refused { LinesAreRefusedOnce }
{}
