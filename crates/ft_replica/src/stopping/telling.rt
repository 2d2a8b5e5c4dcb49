//! The client as a replica that tells.

ghost use Rattle.std.specs.Prelude.{◌≡◌, None, OnErr, OnOk};
ghost use Rattle.ft_op.specs.WellFormed.{IsWellFormed};
ghost use Rattle.ft_msg.specs.Answers.{edit_fault_kind};
ghost use Rattle.ft_msg.specs.Client.{local_edit};
ghost use Rattle.ft_msg.specs.WellFormed.{IsWellFormedMessage};
ghost use Rattle.ft_changes.specs.Told.{told_of_edit, told_of_entry};
ghost use Rattle.ft_replica.specs.Linked.{Anyone, RunsForOne};
ghost use Rattle.ft_replica.specs.Stopping.{AnswersEntry, AnswersOwn};
ghost use Rattle.ft_replica.specs.Telling.{AddsTold, AddsToldFewer};

use crate::stopping::StoppingClient;
use crate::telling::TellingDocument;
use ft_changes::ViewChanges;
use ft_msg::{EditFault, Entry, ProcessFault};
use ft_op::ChannelOp;

impl<D: TellingDocument> StoppingClient<D> {
    /// As `edit`, and adds what changes in the view.
    ///
    /// After an error nothing is added.
    pub fn edit_telling(
        &mut self,
        op: &ChannelOp,
        changes: &mut ViewChanges,
    ) -> Result<(), EditFault>
        requires formed { IsWellFormed op.now }
        requires known { self.old.stop ≡ None → RunsForOne D.holds self.old.client Anyone }
        ensures answers { AnswersOwn D.holds D.shown edit_fault_kind (λ p. local_edit p op.now) self.old self.new result }
        ensures told { OnOk result (AddsTold D.holds (λ p. told_of_edit p op.now) self.old.client changes.old changes.new) }
        ensures same { OnErr result (changes.new ≡ changes.old) }
    {
        if let Some(numbers) = self.stop {
            return Err(EditFault::Stopped {
                seq: numbers.number,
            });
        }
        let numbers = self.client.doc().numbers();
        let answer = self.client.edit_telling(op, changes);
        if let Err(EditFault::OutOfMemory) = answer {
            self.stop = Some(numbers);
        }
        answer
    }

    /// As `process`, and adds what changes in the view.
    ///
    /// After an error nothing is added.
    pub fn process_telling(
        &mut self,
        entry: &Entry,
        changes: &mut ViewChanges,
    ) -> Result<(), ProcessFault>
        requires formed { IsWellFormedMessage entry.now.msg }
        requires known { self.old.stop ≡ None → RunsForOne D.holds self.old.client Anyone }
        ensures answers { AnswersEntry D.holds D.shown entry.now self.old self.new result }
        ensures told { OnOk result (AddsToldFewer D.holds (λ p. told_of_entry p entry.now) self.old.client changes.old changes.new) }
        ensures same { OnErr result (changes.new ≡ changes.old) }
    {
        if let Some(numbers) = self.stop {
            return Err(ProcessFault::Stopped {
                seq: numbers.number,
            });
        }
        if let Some(fault) = self.client.process_fault(entry) {
            return Err(fault);
        }
        let numbers = self.client.doc().numbers();
        if self.client.process_telling(entry, changes).is_err() {
            self.stop = Some(numbers);
            return Err(ProcessFault::OutOfMemory);
        }
        self.origin = self.origin.max(entry.origin);
        Ok(())
    }
}
