//! What orders the messages of a session.

ghost use Rattle.std.specs.Prelude.{◌≡◌, ◌+◌, ◌-◌, ◌<◌, ◌^◌, [], ◌∷◌, ◌++◌, Ok, IfOk, OnOk, length};
ghost use Rattle.ft_seqr.specs.Sequencer.{new_sequencer};
ghost use Rattle.ft_seqr.specs.World.{NaiveWorld, joined, submit_all};
ghost use Rattle.ft_laws_sessions.specs.NewNames.{IsNewName};
ghost use Rattle.ft_session.specs.Services.{AnswersService, left_or_refused};
ghost use Rattle.ft_session.specs.Worlds.{service_of};

use ft_base::moved::push;
use ft_base::{OutOfMemory, Text};
use ft_msg::{Draft, Entry, Names};
use ft_seqr::{Refusal, Sequencer};
use std::alloc::Global;
use std::marker::Model;

/// What orders the messages of a session: the sequencer, the names of the connections by number, and
/// all messages.
#[derive(Drop)]
pub(crate) struct Service {
    pub(crate) alloc: Global,
    sequencer: Sequencer,
    pub(crate) names: Names,
    pub(crate) log: Vec<Entry>,
}

impl Model for Service {
    ghost use Rattle.ft_session.specs.Worlds.{ServiceState};

    ghost Value = { ServiceState };

    ghost view = { λ s. record { sequencer = s.sequencer; names = s.names; log = s.log.items } };
}

impl Service {
    /// Before the first message.
    pub(crate) fn new(alloc: Global) -> Service
        ensures { result ≡ record { sequencer = new_sequencer; names = []; log = [] } }
    {
        Service {
            alloc,
            sequencer: Sequencer::new(alloc),
            names: Names::new(alloc),
            log: Vec::new(alloc),
        }
    }

    /// The number of the next connection.
    ///
    /// Returns `OutOfMemory` where there is no such number any more.
    pub(crate) fn next_conn(&self) -> Result<u32, OutOfMemory>
        ensures next { IfOk result (λ conn. conn ≡ length self.now.names + 1) }
        ensures few { IfOk result (λ conn. length self.now.names < 2 ^ 32 - 1) }
    {
        let count = self.names.len();
        if count >= u32::MAX as usize {
            return Err(OutOfMemory);
        }
        Ok(count as u32 + 1)
    }

    /// The next connection, under this name, joins.
    pub(crate) fn join(&mut self, name: &Text) -> Result<(), Refusal>
        requires few { length self.old.names < 2 ^ 32 - 1 }
        requires new { IsNewName self.old.names name.now }
        ensures { (w : NaiveWorld) → self.old ≡ service_of w → AnswersService self.old self.new (Ok (joined name.now w)) result }
    {
        let conn = self.names.number(name)?;
        let entry = self.sequencer.join(conn, name)?;
        self.log_entry(entry)?;
        Ok(())
    }

    /// The connection leaves.
    ///
    /// Returns `NotConnected` exactly where it isn't joined, and `OutOfMemory` where there is no room
    /// for its message.
    pub(crate) fn leave(&mut self, conn: u32) -> Result<(), Refusal>
        ensures { (w : NaiveWorld) → self.old ≡ service_of w → AnswersService self.old self.new (left_or_refused conn w) result }
    {
        let entry = self.sequencer.leave(conn)?;
        self.log_entry(entry)?;
        Ok(())
    }

    /// A draft of the connection is submitted.
    ///
    /// Returns `Nacked` with the first reason against it, and `OutOfMemory` where there is no room for
    /// its message.
    pub(crate) fn submit(&mut self, conn: u32, draft: Draft) -> Result<(), Refusal>
        ensures { (w : NaiveWorld) → self.old ≡ service_of w → AnswersService self.old self.new (submit_all w conn (draft ∷ [])) result }
    {
        let entry = self.sequencer.take(conn, draft)?;
        self.log_entry(entry)?;
        Ok(())
    }

    // A message comes to the log.
    fn log_entry(&mut self, entry: Entry) -> Result<(), OutOfMemory>
        ensures { OnOk result (self.new ≡ record self.old { log = self.old.log ++ entry ∷ [] }) }
    {
        push(&mut self.log, entry)
    }
}
