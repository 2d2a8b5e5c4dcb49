//! What a document over plain lists tells of a message and of an edit.

use crate::own::PlainOwn;
use ft_base::OutOfMemory;
use ft_changes::{Listener, ShownRest, ViewChanges};
use ft_msg::{EditFault, Entry};
use ft_op::ChannelOp;
use ft_replica::{Compared, TellingDocument, ToldEdit};

impl TellingDocument for PlainOwn {
    fn edit_telling(&mut self, last: u64, op: &ChannelOp) -> Result<ToldEdit, EditFault> {
        let mut listener = Listener::new(self.doc.alloc());
        let stages = self.edit_heard(last, op, &mut listener)?;
        Ok(ToldEdit {
            stages,
            changes: listener.into_changes(),
        })
    }

    fn take_telling(&mut self, last: u64, entry: &Entry) -> Result<ViewChanges, OutOfMemory> {
        self.doc.take_telling(entry, last)
    }

    fn shown_rest(
        &self,
        last: u64,
        compared: Compared,
        op: &ChannelOp,
    ) -> Result<ShownRest, OutOfMemory> {
        self.rest_at(last, compared, op)
    }

    fn moves_ends_alike(&self, _last: u64, entry: &Entry) -> bool {
        self.doc.moves_ends_alike(entry)
    }
}
