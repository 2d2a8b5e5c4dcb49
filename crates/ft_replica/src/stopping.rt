//! The client as a replica: it stops for good at the first call that changes it and finds no memory.

ghost use Rattle.std.specs.Prelude.{◌≡◌, Err, IsTrue, None, OnOk, Some, drop, slice_get};
ghost use Rattle.ft_op.specs.WellFormed.{IsWellFormed};
ghost use Rattle.ft_msg.specs.Answers.{edit_fault_kind, link_fault_kind};
ghost use Rattle.ft_msg.specs.Client.{connect, drop_link, local_edit, noop};
ghost use Rattle.ft_msg.specs.WellFormed.{IsWellFormedDraft, IsWellFormedMessage};
ghost use Rattle.ft_replica.specs.Linked.{Anyone, RunsForOne, least_ref, linked_over};
ghost use Rattle.ft_replica.specs.Own.{HasNoTombstone, ReadsFew};
ghost use Rattle.ft_replica.specs.Stopping.{AnswersEntry, AnswersOwn, AnswersOwnCompaction, told_numbers};

mod telling;

use crate::document::{OwnDocument, OwnNumbers};
use crate::linked::LinkedClient;
use ft_base::Steps;
use ft_msg::{Draft, EditFault, Entry, LinkFault, ProcessFault, ViewFault};
use ft_op::ChannelOp;
use std::alloc::Global;
use std::marker::Model;
use std::sync::ledger::Ledger;

/// A client that may have stopped, which contracts see as the client, the greatest number of a connection in
/// what it processed, and the numbers with which it stopped, if it did.
#[derive(Drop)]
pub struct StoppingClient<D: OwnDocument> {
    client: LinkedClient<D>,
    origin: u32,
    stop: Option<OwnNumbers>,
}

impl<D: OwnDocument> Model for StoppingClient<D> {
    ghost use Rattle.ft_replica.specs.Stopping.{StoppingState};

    ghost Value = { StoppingState D };

    ghost view = { λ a. record { client = a.client; origin = a.origin; stop = a.stop } };
}

impl<D: OwnDocument> StoppingClient<D> {
    /// An offline client over a document of messages alone, which knows the connections up to `origin`.
    pub fn over(alloc: Global, doc: D, origin: u32) -> StoppingClient<D>
        ensures { result ≡ record { client = linked_over doc; origin = origin; stop = None } }
    {
        StoppingClient {
            client: LinkedClient::over(alloc, doc),
            origin,
            stop: None,
        }
    }

    /// The client. After a stop its link and its queue are those before the call that stopped it.
    pub fn client(&self) -> &LinkedClient<D>
        ensures { result.now ≡ self.now.client }
    {
        &self.client
    }

    /// The greatest number of a connection in what it processed.
    pub fn origin(&self) -> u32
        ensures { result ≡ self.now.origin }
    {
        self.origin
    }

    /// The numbers with which it stopped, if it did.
    pub fn stop(&self) -> Option<OwnNumbers>
        ensures { result ≡ self.now.stop }
    {
        self.stop
    }

    /// Its numbers; after a stop, those before the call that stopped it.
    pub fn numbers(&self) -> OwnNumbers
        ensures { result ≡ told_numbers D.shown self.now }
    {
        match self.stop {
            Some(numbers) => numbers,
            None => self.client.doc().numbers(),
        }
    }

    /// Takes an edit of the client's own.
    ///
    /// Returns `Stopped` where it stopped before; then the client's refusal; and `OutOfMemory` where there is no
    /// room, after which it has stopped.
    pub fn edit<G: Ledger>(&mut self, op: &ChannelOp, steps: &mut Steps<G>) -> Result<(), EditFault>
        requires formed { IsWellFormed op.now }
        requires known { self.old.stop ≡ None → RunsForOne D.holds self.old.client Anyone }
        ensures answers { AnswersOwn D.holds D.shown edit_fault_kind (λ p. local_edit p op.now) self.old self.new result }
        ensures reads { IsTrue D.COUNTS → self.old.stop ≡ None → ReadsFew op.now (D.shown self.old.client.document).content steps.old steps.new }
    {
        if let Some(numbers) = self.stop {
            return Err(EditFault::Stopped {
                seq: numbers.number,
            });
        }
        let numbers = self.client.doc().numbers();
        let answer = self.client.edit(op, steps);
        if let Err(EditFault::OutOfMemory) = answer {
            self.stop = Some(numbers);
        }
        answer
    }

    /// Processes the next message; before it takes that it looks for some of what may be forgotten.
    ///
    /// Returns `Stopped` where it stopped before; then the client's refusal; and `OutOfMemory` where there is no
    /// room, after which it has stopped.
    pub fn process(&mut self, entry: &Entry) -> Result<(), ProcessFault>
        requires formed { IsWellFormedMessage entry.now.msg }
        requires known { self.old.stop ≡ None → RunsForOne D.holds self.old.client Anyone }
        ensures { AnswersEntry D.holds D.shown entry.now self.old self.new result }
    {
        if let Some(numbers) = self.stop {
            return Err(ProcessFault::Stopped {
                seq: numbers.number,
            });
        }
        if let Some(fault) = self.client.process_fault(entry) {
            return Err(fault);
        }
        let numbers = self.client.doc().numbers();
        if self.client.process(entry).is_err() {
            self.stop = Some(numbers);
            return Err(ProcessFault::OutOfMemory);
        }
        self.origin = self.origin.max(entry.origin);
        Ok(())
    }

    /// Begins to join under a new connection.
    ///
    /// Returns `Stopped` where it stopped before; then `AlreadyConnected` where the client isn't offline; and
    /// `OutOfMemory` where there is no room, after which it has stopped.
    pub fn connect(&mut self, conn: u32) -> Result<(), LinkFault>
        ensures { AnswersOwn D.holds D.shown link_fault_kind (λ p. connect p conn) self.old self.new result }
    {
        if let Some(numbers) = self.stop {
            return Err(LinkFault::Stopped {
                seq: numbers.number,
            });
        }
        let numbers = self.client.doc().numbers();
        let answer = self.client.connect(conn);
        if let Err(LinkFault::OutOfMemory) = answer {
            self.stop = Some(numbers);
        }
        answer
    }

    /// Goes offline; the drafts that it didn't send are gone.
    ///
    /// Returns `Stopped` where it stopped before, and then `NotConnected` where the client is offline.
    pub fn drop_link(&mut self) -> Result<(), LinkFault>
        ensures answers { AnswersOwn D.holds D.shown link_fault_kind drop_link self.old self.new result }
        ensures memory { ¬ (result ≡ Err LinkFault.OutOfMemory) }
    {
        if let Some(numbers) = self.stop {
            return Err(LinkFault::Stopped {
                seq: numbers.number,
            });
        }
        self.client.drop_link()
    }

    /// Queues a draft that tells the client's number alone.
    ///
    /// Returns `Stopped` where it stopped before; then `NotConnected` where the client isn't online; and
    /// `OutOfMemory` where there is no room, after which it has stopped.
    pub fn noop(&mut self) -> Result<(), LinkFault>
        ensures { AnswersOwn D.holds D.shown link_fault_kind noop self.old self.new result }
    {
        if let Some(numbers) = self.stop {
            return Err(LinkFault::Stopped {
                seq: numbers.number,
            });
        }
        let numbers = self.client.doc().numbers();
        let answer = self.client.noop();
        if let Err(LinkFault::OutOfMemory) = answer {
            self.stop = Some(numbers);
        }
        answer
    }

    /// Takes the oldest draft that isn't sent yet, which is well formed: None exactly where there is none.
    pub fn take_outgoing(&mut self) -> Option<Draft>
        ensures oldest { result ≡ slice_get self.old.client.box.drafts 0 }
        ensures rest { self.new ≡ record self.old { client = record self.old.client { box = record self.old.client.box { drafts = drop 1 self.old.client.box.drafts } } } }
        ensures formed { (draft : Draft) → result ≡ Some draft → IsWellFormedDraft draft }
    {
        self.client.take_outgoing()
    }

    /// Takes away all that was removed at or below the floor, where the document compacts.
    ///
    /// Returns `Stopped` where it stopped before, and `OutOfMemory` where there is no room, after which it has
    /// stopped.
    pub fn compact(&mut self) -> Result<(), ViewFault>
        requires { self.old.stop ≡ None → RunsForOne D.holds self.old.client Anyone }
        ensures answers { AnswersOwnCompaction D.holds D.shown self.old self.new result }
        ensures full { IsTrue D.COMPACTS → OnOk result (HasNoTombstone (least_ref (D.shown self.old.client.document).content.minimum self.old.client.pending) (D.shown self.new.client.document).content) }
    {
        if let Some(numbers) = self.stop {
            return Err(ViewFault::Stopped {
                seq: numbers.number,
            });
        }
        let numbers = self.client.doc().numbers();
        if self.client.compact().is_err() {
            self.stop = Some(numbers);
            return Err(ViewFault::OutOfMemory);
        }
        Ok(())
    }
}
