//! The replica tells what changes in its view, where its document does.

use crate::replica::{ReplicaOver, is_nameless_after};
use crate::telling::TellingDocument;
use ft_changes::{Telling, ViewChanges};
use ft_msg::{EditFault, Entry, ProcessFault};
use ft_op::ChannelOp;

impl<D: TellingDocument> Telling for ReplicaOver<D> {
    fn edit_telling(&mut self, op: &ChannelOp, changes: &mut ViewChanges) -> Result<(), EditFault> {
        self.client.edit_telling(op, changes)
    }

    fn process_telling(
        &mut self,
        entry: &Entry,
        changes: &mut ViewChanges,
    ) -> Result<(), ProcessFault> {
        let answer = self.client.process_telling(entry, changes);
        if answer.is_ok() {
            self.nameless = is_nameless_after(self.nameless, entry);
        }
        answer
    }
}
