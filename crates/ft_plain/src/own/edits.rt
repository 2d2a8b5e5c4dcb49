//! What an edit of the client's own makes of a document over plain lists.

ghost use Rattle.std.specs.Prelude.{◌≡◌, ◌+◌, OnOk};
ghost use Rattle.ft_op.specs.Operation.{sub_operations};
ghost use Rattle.ft_msg.specs.Client.{local_sub_operations};
ghost use Rattle.ft_changes.specs.Listeners.{heard};
ghost use Rattle.ft_changes.specs.Told.{told_locals};
ghost use Rattle.ft_replica.specs.Own.{AnswersStages, HeldDocument};
ghost use Rattle.ft_plain.specs.Own.{HoldsExactly};

use crate::own::PlainOwn;
use ft_changes::Listener;
use ft_msg::EditFault;
use ft_op::ChannelOp;
use ft_plain_document::NotTaken;

impl PlainOwn {
    /// Takes an edit as pending stages behind the last one, and returns how many; the listener hears how the shown elements of
    /// the lists change.
    pub(crate) fn edit_heard(
        &mut self,
        last: u64,
        op: &ChannelOp,
        listener: &mut Listener,
    ) -> Result<usize, EditFault>
        ensures answers { (held : HeldDocument) → held.last ≡ last → HoldsExactly self.old held
            → AnswersStages (HoldsExactly self.new) held (local_sub_operations held.doc held.stages (last + 1) (sub_operations op.now)) result }
        ensures told { OnOk result (listener.new ≡ heard listener.old (told_locals self.old.doc self.old.stages (last + 1) (sub_operations op.now))) }
    {
        let Some(first) = last.checked_add(1) else {
            return Err(EditFault::OutOfMemory);
        };
        let stages = match self.doc.edit(self.stages.as_slice(), first, op, listener) {
            Ok(stages) => stages,
            Err(NotTaken::OutOfMemory) => return Err(EditFault::OutOfMemory),
            Err(NotTaken::Refused(fault)) => return Err(fault),
        };
        let count = stages.len();
        if self.stages.append(stages).is_err() {
            return Err(EditFault::OutOfMemory);
        }
        Ok(count)
    }
}
