//! The server.

use crate::editor::Editor;
use crate::faults::Fault;
use ft_base::Text;
use ft_changes::Telling;
use ft_msg::{Draft, Entry, Replica, is_well_formed_message};
use ft_seqr::{Sequencer, conn_of};
use std::alloc::Global;

/// What the editors send their messages to: it numbers them, and keeps the log.
#[derive(Drop)]
pub struct Server {
    alloc: Global,
    sequencer: Sequencer,
    log: Vec<Entry>,
}

impl Server {
    /// A server before the first message.
    pub fn new(alloc: Global) -> Server {
        Server {
            alloc,
            sequencer: Sequencer::new(alloc),
            log: Vec::new(alloc),
        }
    }

    /// The client begins to join under a connection of this number, which is a new one, and this name.
    pub fn join<R: Replica>(&mut self, client: &mut R, conn: u32, name: &str) -> Result<(), Fault> {
        client.connect(conn)?;
        self.take_in(conn, &Text::new(self.alloc, name)?)
    }

    /// The connection of the client is gone.
    pub fn leave<R: Replica>(&mut self, client: &mut R) -> Result<(), Fault> {
        let conn = conn_of(client.numbers().link).ok_or(Fault::Offline)?;
        client.drop_link()?;
        let entry = self.sequencer.leave(conn)?;
        self.keep(entry)
    }

    /// Takes what the client hasn't sent yet.
    pub fn submit<R: Replica>(&mut self, client: &mut R) -> Result<(), Fault> {
        let conn = conn_of(client.numbers().link).ok_or(Fault::Offline)?;
        while let Some(draft) = client.take_outgoing() {
            self.take(conn, draft)?;
        }
        Ok(())
    }

    /// Gives the editor the messages that its client hasn't processed yet.
    pub fn deliver<R: Telling + Drop>(&self, editor: &mut Editor<R>) -> Result<(), Fault> {
        let processed = editor.client.numbers().seq as usize;
        for entry in self.log.iter().skip(processed) {
            give(editor, entry)?;
        }
        Ok(())
    }

    // A connection joins.
    fn take_in(&mut self, conn: u32, name: &Text) -> Result<(), Fault> {
        let entry = self.sequencer.join(conn, name)?;
        self.keep(entry)
    }

    // A draft of the connection gets its number.
    fn take(&mut self, conn: u32, draft: Draft) -> Result<(), Fault> {
        let entry = self.sequencer.take(conn, draft)?;
        self.keep(entry)
    }

    // A message more.
    fn keep(&mut self, entry: Entry) -> Result<(), Fault> {
        self.log.push(entry)?;
        Ok(())
    }
}

// Gives the editor a message.
fn give<R: Telling + Drop>(editor: &mut Editor<R>, entry: &Entry) -> Result<(), Fault> {
    if !is_well_formed_message(&entry.msg) {
        return Err(Fault::IllFormed);
    }
    editor.process(entry)
}
