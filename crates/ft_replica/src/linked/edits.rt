//! The client's own edits.

ghost use Rattle.std.specs.Prelude.{◌≡◌, ◌+◌, [], ◌∷◌, ◌++◌, IfOk, IsTrue, OnOk, OnErr};
ghost use Rattle.ft_op.specs.WellFormed.{IsWellFormed, is_count};
ghost use Rattle.ft_msg.specs.Answers.{edit_fault_kind};
ghost use Rattle.ft_msg.specs.Client.{local_edit, sent_as};
ghost use Rattle.ft_replica.specs.Linked.{Anyone, AnswersLinked, RunsForOne};
ghost use Rattle.ft_replica.specs.Own.{ReadsFew};
ghost use Rattle.ft_replica.specs.Unsent.{with_sent};

use crate::document::OwnDocument;
use crate::linked::LinkedClient;
use crate::pending::{PendingEdit, Sent};
use ft_base::{Datum, OutOfMemory, Steps};
use ft_msg::{EditFault, Link};
use ft_op::ChannelOp;
use std::sync::ledger::Ledger;

impl<D: OwnDocument> LinkedClient<D> {
    /// Takes an edit of the client's own, which shows at once; online its draft is queued too.
    ///
    /// Returns the refusal of the first sub-operation that can't be taken, and `OutOfMemory` where there is
    /// no room or a count would pass its greatest number.
    pub fn edit<G: Ledger>(&mut self, op: &ChannelOp, steps: &mut Steps<G>) -> Result<(), EditFault>
        requires formed { IsWellFormed op.now }
        requires known { RunsForOne D.holds self.old Anyone }
        ensures answers { AnswersLinked D.holds edit_fault_kind (λ p. local_edit p op.now) self.old self.new result }
        ensures reads { IsTrue D.COUNTS → ReadsFew op.now (D.shown self.old.document).content steps.old steps.new }
    {
        let ref_seq = self.doc.number();
        let count = self.doc.edit(self.last_stage, op, steps)?;
        if self.keep_edit(count, ref_seq, op).is_err() {
            return Err(EditFault::OutOfMemory);
        }
        Ok(())
    }

    // As what the client sends an operation: an online client sends it, another doesn't.
    fn sent_as(&self, op: &ChannelOp) -> Result<Option<Sent>, OutOfMemory>
        ensures { IfOk result (λ sent. sent ≡ sent_as self.now.link self.now.box.next op.now) }
    {
        match self.link {
            Link::Online { conn } => Ok(Some(Sent::new(conn, self.outbox.next(), op.copy()?))),
            Link::Offline | Link::Joining { .. } => Ok(None),
        }
    }

    /// Keeps an edit with so many stages as pending, and queues its draft, if it is sent.
    ///
    /// Returns `OutOfMemory` where there is no room for that, or a count would pass its greatest number, and then
    /// nothing changed.
    pub(crate) fn keep_edit(
        &mut self,
        count: usize,
        ref_seq: u64,
        op: &ChannelOp,
    ) -> Result<(), OutOfMemory>
        requires ref_seq { IsTrue (is_count ref_seq) }
        requires formed { IsWellFormed op.now }
        ensures ok { let sent = sent_as self.old.link self.old.box.next op.now in OnOk result (self.new ≡ record self.old {
          last_stage = self.old.last_stage + count;
          box = with_sent sent ref_seq self.old.box;
          pending = self.old.pending ++ (record { count = count; ref_seq = ref_seq; sent = sent } ∷ []);
        }) }
        ensures err { OnErr result (self.new ≡ self.old) }
    {
        let last_stage = self.last_stage.checked_add(count as u64);
        let last_stage = last_stage.ok_or(OutOfMemory)?;
        let sent = self.sent_as(op)?;
        let edit = PendingEdit::new(count, ref_seq, sent);
        self.pending.push(edit, &mut self.outbox)?;
        self.last_stage = last_stage;
        Ok(())
    }
}
