//! How a client comes back under a new connection.

ghost use Rattle.std.specs.Prelude.{◌≡◌, ◌+◌, ◌++◌, IsTrue, None, Ok, OnOk};
ghost use Rattle.ft_op.specs.WellFormed.{IsWellFormed, is_count};
ghost use Rattle.ft_msg.specs.Answers.{WantOfMemory};
ghost use Rattle.ft_msg.specs.Process.{come_online, process_fault};
ghost use Rattle.ft_msg.specs.WellFormed.{IsWellFormedMessage};
ghost use Rattle.ft_replica.specs.Linked.{AnswersLinked, RunsForOne, sent_parts, with_parts};

use crate::document::{OwnDocument, Resent};
use crate::linked::LinkedClient;
use crate::outbox::Outbox;
use crate::pending::{PendingEdit, PendingEdits, Sent};
use ft_base::OutOfMemory;
use ft_base::moved::beside;
use ft_msg::{Entry, Link};
use ft_op::{ChannelOp, is_well_formed};
use std::collections::VecDeque;

impl<D: OwnDocument> LinkedClient<D> {
    /// Takes its own join: its document goes on, and its pending edits are sent again.
    ///
    /// Returns `OutOfMemory` where there is no room for that, or a count would pass its greatest number.
    pub(crate) fn come_online(&mut self, entry: &Entry) -> Result<(), OutOfMemory>
        requires formed { IsWellFormedMessage entry.now.msg }
        requires known { RunsForOne D.holds self.old (λ p. process_fault p entry.now ≡ None) }
        ensures { AnswersLinked D.holds (λ _. WantOfMemory) (λ p. Ok (come_online p entry.now)) self.old self.new result }
    {
        let counts = self.pending.counts(self.alloc)?;
        let mut outbox = Outbox::new(self.alloc);
        let mut pending = PendingEdits::new(self.alloc);
        let resent = self.doc.rejoin(counts.as_slice(), entry)?;
        send_again(entry, resent, &mut pending, &mut outbox)?;
        self.link = Link::Online { conn: entry.origin };
        self.outbox = outbox;
        self.pending = pending;
        Ok(())
    }
}

// Adds the edits that have a piece, as they are sent again under the connection that joined, and their drafts.
//
// Returns `OutOfMemory` where there is no room for them, or a position or a number would pass 2^53 - 1.
fn send_again(
    entry: &Entry,
    mut resent: VecDeque<Resent>,
    pending: &mut PendingEdits,
    outbox: &mut Outbox,
) -> Result<(), OutOfMemory>
    requires { IsTrue (is_count entry.now.msg.seq) }
    ensures edits { OnOk result (pending.new ≡ pending.old ++ sent_parts entry.now.origin entry.now.msg.seq outbox.old.next resent.items) }
    ensures outbox { OnOk result (outbox.new ≡ with_parts (sent_parts entry.now.origin entry.now.msg.seq outbox.old.next resent.items) outbox.old) }
{
    while let Some(Resent { op, stages }) = resent.pop_front() {
        if let Some(op) = op {
            let (_, op) = beside(test_positions(&op), op)?;
            let sent = Sent::new(entry.origin, outbox.next(), op);
            let edit = PendingEdit::new(stages, entry.msg.seq, Some(sent));
            pending.push(edit, outbox)?;
        }
    }
    Ok(())
}

// Tests that no position in the operation passes 2^53 - 1.
//
// Returns `OutOfMemory` where one does, since no document that fits into memory has so many elements.
fn test_positions(op: &ChannelOp) -> Result<(), OutOfMemory>
    ensures { OnOk result (IsWellFormed op.now) }
{
    if is_well_formed(op) {
        Ok(())
    } else {
        Err(OutOfMemory)
    }
}
