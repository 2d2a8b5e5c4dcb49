//! A client over a document of its own: its link, its pending edits, and what it hasn't sent yet.

ghost use Rattle.std.specs.Prelude.{◌≡◌, length};
ghost use Rattle.ft_replica.specs.Linked.{linked_over};

mod edits;
mod links;
mod processing;
mod reading;
mod reconnections;
mod telling;

use crate::connections::Connections;
use crate::document::OwnDocument;
use crate::outbox::Outbox;
use crate::pending::PendingEdits;
use ft_msg::Link;
use std::alloc::Global;
use std::marker::Model;

/// A client over a document of its own. Contracts see that document, the link, the connections, the last
/// stage, the outbox, and of each pending edit how many stages it has; the stages are the document's. Each
/// call is about every client of the definitions for which it stands.
#[derive(Drop)]
pub struct LinkedClient<D: OwnDocument> {
    alloc: Global,
    doc: D,
    link: Link,
    conns: Connections,
    last_stage: u64,
    outbox: Outbox,
    pending: PendingEdits,
}

impl<D: OwnDocument> Model for LinkedClient<D> {
    ghost use Rattle.ft_replica.specs.Linked.{LinkedState};

    ghost Value = { LinkedState D };

    ghost view = { λ a. record {
      document = a.doc;
      link = a.link;
      conns = a.conns;
      last_stage = a.last_stage;
      box = a.outbox;
      pending = a.pending;
    } };
}

impl<D: OwnDocument> LinkedClient<D> {
    /// An offline client over a document of messages alone.
    pub fn over(alloc: Global, doc: D) -> LinkedClient<D>
        ensures { result ≡ linked_over doc }
    {
        LinkedClient {
            alloc,
            doc,
            link: Link::Offline,
            conns: Connections::new(alloc),
            last_stage: 0,
            outbox: Outbox::new(alloc),
            pending: PendingEdits::new(alloc),
        }
    }

    /// Its document.
    pub fn doc(&self) -> &D
        ensures { result.now ≡ self.now.document }
    {
        &self.doc
    }

    /// How many edits are pending.
    pub fn pending(&self) -> usize
        ensures { result ≡ length self.now.pending }
    {
        self.pending.len()
    }

    /// Its last pending stage.
    pub fn last_stage(&self) -> u64
        ensures { result ≡ self.now.last_stage }
    {
        self.last_stage
    }

    /// How it stands to the sequencer.
    pub fn link(&self) -> Link
        ensures { result ≡ self.now.link }
    {
        self.link
    }
}
