//! What orders the messages of a map session.

ghost use Rattle.std.specs.Prelude.{◌≡◌, [], ◌∷◌, ◌++◌, Ok, IfOk, OnOk};
ghost use Rattle.ft_map.specs.MapSession.{joined, new_service, next_conn, submit_one};
ghost use Rattle.ft_map.specs.MapWorlds.{AnswersLeave, HasNoNack};

use crate::log::MapEntry;
use ft_base::moved::push;
use ft_base::{OutOfMemory, Text};
use ft_msg::{Draft, Entry};
use ft_seqr::{Refusal, Sequencer, SubmitFault};
use ft_shared_map::MapOp;
use std::alloc::Global;
use std::marker::Model;

/// The sequencer, how many connections there were, and all messages with their operations.
#[derive(Drop)]
pub(crate) struct Service {
    sequencer: Sequencer,
    connections: u32,
    log: Vec<MapEntry>,
}

impl Model for Service {
    ghost use Rattle.ft_map.specs.MapSession.{MapService};

    ghost Value = { MapService };

    ghost view = { λ s. record { sequencer = s.sequencer; connections = s.connections; log = s.log.items } };
}

impl Service {
    /// Before the first message. It takes no memory.
    pub(crate) fn new(alloc: Global) -> Service
        ensures { result ≡ new_service }
    {
        Service {
            sequencer: Sequencer::new(alloc),
            connections: 0,
            log: Vec::new(alloc),
        }
    }

    /// All messages.
    pub(crate) fn log(&self) -> &[MapEntry]
        ensures { result.now ≡ self.now.log }
    {
        self.log.as_slice()
    }

    /// The next connection, under this name, joins; its number.
    ///
    /// Returns `OutOfMemory` where there is no such number any more, or no room for its message.
    pub(crate) fn join(&mut self, name: &Text) -> Result<u32, OutOfMemory>
        ensures conn { IfOk result (λ conn. conn ≡ next_conn self.old) }
        ensures joined { OnOk result (self.new ≡ joined name.now self.old) }
    {
        let conn = self.connections.checked_add(1).ok_or(OutOfMemory)?;
        let entry = self.sequencer.join(conn, name)?;
        self.connections = conn;
        self.log_entry(entry, None)?;
        Ok(conn)
    }

    /// The connection leaves.
    ///
    /// Returns `NotConnected` exactly where it isn't joined, and `OutOfMemory` where there is no room for its message.
    pub(crate) fn leave(&mut self, conn: u32) -> Result<(), Refusal>
        ensures { AnswersLeave conn self.old self.new result }
    {
        let entry = self.sequencer.leave(conn)?;
        self.log_entry(entry, None)?;
        Ok(())
    }

    /// A draft of the connection, with this operation, is submitted.
    pub(crate) fn submit(&mut self, conn: u32, draft: Draft, op: MapOp) -> Result<(), OutOfMemory>
        requires { HasNoNack (submit_one self.old conn (record { draft = draft; op = op })) }
        ensures { OnOk result (submit_one self.old conn (record { draft = draft; op = op }) ≡ Ok self.new) }
    {
        match self.sequencer.take(conn, draft) {
            Ok(entry) => self.log_entry(entry, Some(op)),
            Err(SubmitFault::OutOfMemory) => Err(OutOfMemory),
            Err(SubmitFault::Nack(_nack)) => unreachable!(),
        }
    }

    // A message comes to the log.
    fn log_entry(&mut self, entry: Entry, op: Option<MapOp>) -> Result<(), OutOfMemory>
        ensures { OnOk result (self.new ≡ record self.old { log = self.old.log ++ record { entry = entry; op = op } ∷ [] }) }
    {
        push(&mut self.log, MapEntry { entry, op })
    }
}
