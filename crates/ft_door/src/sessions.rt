//! A session that is held between calls.

ghost use Rattle.std.specs.Prelude.{◌≡◌, ◌+◌, ◌≤◌, [], IfOk, None, Some, length};
ghost use Rattle.ft_io.specs.Reader.{input_limit};
ghost use Rattle.ft_door.specs.Runs.{ClosesSession, HearsLine, ReadsReport, Stands, unread_of};

use crate::waiting::Waiting;
use ft_base::OutOfMemory;
use ft_msg::Replica;
use ft_replay::{Ending, SessionReplay, session_pieces};
use ft_report::{DONE, OUT_OF_MEMORY, SOME_REFUSED, TOO_LONG};
use std::alloc::Global;

/// The session isn't open.
pub const CLOSED: u32 = 7;

/// A session that is held between calls: what hears its lines, and what of its report wasn't read yet.
#[derive(Drop)]
pub struct HeldSession<R: Replica + Drop> {
    // None from its end on, or once there was no memory.
    session: Option<SessionReplay<R>>,
    waiting: Waiting,
}

impl<R: Replica + Drop> HeldSession<R> {
    /// A session before its first line.
    ///
    /// Returns `OutOfMemory` where there is no room for it.
    pub fn new(alloc: Global) -> Result<HeldSession<R>, OutOfMemory>
        ensures { IfOk result (λ run. Stands run [] []) }
    {
        let session = SessionReplay::new(alloc)?;
        Ok(HeldSession {
            session: Some(session),
            waiting: Waiting::new(alloc),
        })
    }

    /// One that is at its end, with nothing to read.
    pub fn ended(alloc: Global) -> HeldSession<R>
        ensures { result.session ≡ None }
    {
        HeldSession {
            session: None,
            waiting: Waiting::new(alloc),
        }
    }

    /// Hears a line, which is given without its LF; what it writes is put behind what wasn't read yet.
    ///
    /// Returns `DONE` where it was taken, and `SOME_REFUSED` where it was refused; `OUT_OF_MEMORY` where there is no room for
    /// what it makes or writes, and then the session is at its end; `TOO_LONG` where more than 16,777,216 lines were heard
    /// before, and `CLOSED` where the session is at its end: then nothing changed.
    pub fn hear(&mut self, line: &[u8]) -> u32
        ensures { HearsLine self.old self.new line.now result }
    {
        let Some(session) = self.session.take() else {
            return CLOSED;
        };
        session_pieces();
        if session.is_full() {
            drop(self.session.replace(session));
            return TOO_LONG;
        }
        self.hear_more(session, line)
    }

    /// Puts the last lines behind what wasn't read yet; the session is at its end then.
    ///
    /// Returns `DONE` where no line was refused and no sub-operation skipped, else `SOME_REFUSED`; `OUT_OF_MEMORY` where there
    /// is no room for these lines; and `CLOSED` where it was at its end before.
    pub fn close(&mut self) -> u32
        ensures { ClosesSession self.old self.new result }
    {
        let Some(session) = self.session.take() else {
            return CLOSED;
        };
        session_pieces();
        match session.close(&mut self.waiting) {
            Ok(Ending::Done) => DONE,
            Ok(Ending::SomeRefused) => SOME_REFUSED,
            Err(_) => OUT_OF_MEMORY,
        }
    }

    /// How many bytes of the report weren't read yet.
    pub fn unread(&self) -> usize
        ensures { result ≡ length (unread_of self.now) }
    {
        self.waiting.len()
    }

    /// Reads the next bytes of the report into the first of the room, as many as it has room for, and returns how many.
    pub fn read(&mut self, room: &mut [u8]) -> usize
        ensures { ReadsReport self.old self.new room.new result }
    {
        self.waiting.read(room)
    }

    // Hears a line with this session, which isn't full and was taken out.
    fn hear_more(&mut self, session: SessionReplay<R>, line: &[u8]) -> u32
        requires few { session.lines ≤ input_limit }
        requires out { self.old.session ≡ None }
        ensures { HearsLine (record self.old { session = Some session }) self.new line.now result }
    {
        session_pieces();
        let before = session.refused();
        match session.hear(line, &mut self.waiting) {
            Ok(session) => {
                let status = status_of(before, session.refused());
                drop(self.session.replace(session));
                status
            }
            Err(_) => OUT_OF_MEMORY,
        }
    }
}

// The status of a line, from how many lines were refused before it and with it, at most one more.
fn status_of(before: u64, now: u64) -> u32
    ensures sum { before ≤ now → now ≤ before + 1 → before + result ≡ now }
    ensures one { result ≤ 1 }
{
    if now == before { DONE } else { SOME_REFUSED }
}
