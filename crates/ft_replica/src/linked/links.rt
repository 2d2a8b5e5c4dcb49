//! The client's link, and its queue.

ghost use Rattle.std.specs.Prelude.{◌≡◌, Err, Some, length, drop, slice_get, option_copied};
ghost use Rattle.ft_msg.specs.Answers.{link_fault_kind};
ghost use Rattle.ft_msg.specs.Client.{connect, drop_link, noop};
ghost use Rattle.ft_msg.specs.WellFormed.{IsWellFormedDraft};
ghost use Rattle.ft_replica.specs.Linked.{AnswersLinked};

use crate::document::OwnDocument;
use crate::linked::LinkedClient;
use ft_msg::{Body, Draft, Link, LinkFault};

impl<D: OwnDocument> LinkedClient<D> {
    /// Begins to join under a new connection.
    ///
    /// Returns `AlreadyConnected` exactly where the client isn't offline, and `OutOfMemory` where there is no
    /// room; then nothing changed.
    pub fn connect(&mut self, conn: u32) -> Result<(), LinkFault>
        ensures { AnswersLinked D.holds link_fault_kind (λ p. connect p conn) self.old self.new result }
    {
        let Link::Offline = self.link else {
            return Err(LinkFault::AlreadyConnected);
        };
        if self.conns.push(conn).is_err() {
            return Err(LinkFault::OutOfMemory);
        }
        self.link = Link::Joining { conn };
        self.outbox.restart();
        Ok(())
    }

    /// Goes offline; the drafts that it didn't send are gone.
    ///
    /// Returns `NotConnected` exactly where the client is offline, and then nothing changed.
    pub fn drop_link(&mut self) -> Result<(), LinkFault>
        ensures answers { AnswersLinked D.holds link_fault_kind drop_link self.old self.new result }
        ensures memory { ¬ (result ≡ Err LinkFault.OutOfMemory) }
    {
        if let Link::Offline = self.link {
            return Err(LinkFault::NotConnected);
        }
        self.link = Link::Offline;
        self.outbox.clear();
        Ok(())
    }

    /// Queues a draft that tells the client's number alone.
    ///
    /// Returns `NotConnected` exactly where the client isn't online, and `OutOfMemory` where there is no room;
    /// then nothing changed.
    pub fn noop(&mut self) -> Result<(), LinkFault>
        ensures { AnswersLinked D.holds link_fault_kind noop self.old self.new result }
    {
        let Link::Online { .. } = self.link else {
            return Err(LinkFault::NotConnected);
        };
        let draft = Draft {
            client_seq: self.outbox.next(),
            ref_seq: self.doc.number(),
            body: Body::Nothing,
        };
        if self.outbox.push(draft).is_err() {
            return Err(LinkFault::OutOfMemory);
        }
        Ok(())
    }

    /// How many drafts aren't sent yet.
    pub fn queued(&self) -> usize
        ensures { result ≡ length self.now.box.drafts }
    {
        self.outbox.len()
    }

    /// The draft at place `i` of those, counted from 0: None exactly where `i` isn't below their count.
    pub fn queue_at(&self, i: usize) -> Option<&Draft>
        ensures { option_copied result ≡ slice_get self.now.box.drafts i }
    {
        self.outbox.at(i)
    }

    /// Takes the oldest draft that isn't sent yet, which is well formed: None exactly where there is none.
    pub fn take_outgoing(&mut self) -> Option<Draft>
        ensures oldest { result ≡ slice_get self.old.box.drafts 0 }
        ensures rest { self.new ≡ record self.old { box = record self.old.box { drafts = drop 1 self.old.box.drafts } } }
        ensures formed { (draft : Draft) → result ≡ Some draft → IsWellFormedDraft draft }
    {
        self.outbox.take()
    }
}
