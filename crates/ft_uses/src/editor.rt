//! An editor: a client, and what is shown of it.

ghost use Rattle.ft_op.specs.WellFormed.{IsWellFormed};
ghost use Rattle.ft_msg.specs.WellFormed.{IsWellFormedMessage};

use crate::faults::Fault;
use ft_changes::{Telling, ViewChanges};
use ft_msg::Entry;
use ft_op::ChannelOp;
use ft_shown::Shown;
use std::alloc::Global;

/// An editor that listens: its client tells what changes in the view, and it applies that to what it shows.
#[derive(Drop)]
pub struct Editor<R: Telling> {
    alloc: Global,
    pub client: R,
    pub shown: Shown,
}

impl<R: Telling + Drop> Editor<R> {
    /// An editor of an empty document.
    pub fn new(alloc: Global) -> Result<Editor<R>, Fault> {
        Ok(Editor {
            alloc,
            client: R::start(alloc)?,
            shown: Shown::new(alloc),
        })
    }

    /// Takes an edit of its user.
    pub fn edit(&mut self, op: &ChannelOp) -> Result<(), Fault>
        requires { IsWellFormed op.now }
    {
        let mut changes = ViewChanges::new(self.alloc);
        self.client.edit_telling(op, &mut changes)?;
        self.shown.apply_all(changes)?;
        Ok(())
    }

    /// Takes the next message.
    pub fn process(&mut self, entry: &Entry) -> Result<(), Fault>
        requires { IsWellFormedMessage entry.now.msg }
    {
        let mut changes = ViewChanges::new(self.alloc);
        self.client.process_telling(entry, &mut changes)?;
        self.shown.apply_all(changes)?;
        Ok(())
    }
}
