//! What a listener hears of a document.

ghost use Rattle.std.specs.Prelude.{◌≡◌, OnOk};
ghost use Rattle.ft_changes.specs.Listeners.{heard};
ghost use Rattle.ft_changes.specs.Told.{told_local, told_of_grid, told_of_text};
ghost use Rattle.ft_plain_document.specs.SubOperations.{sub_operation_of};

use crate::documents::PlainDocument;
use crate::stages::SubOp;
use ft_base::{OutOfMemory, Perspective};
use ft_changes::Listener;
use ft_op::{BaseOp, CellOp};

impl PlainDocument {
    /// Tells what an operation of the text by the perspective changes in what is shown at stage `last`.
    pub(crate) fn tell_text(
        &self,
        listener: &mut Listener,
        last: u64,
        op: &BaseOp,
        at: Perspective,
    ) -> Result<(), OutOfMemory>
        ensures { OnOk result (listener.new ≡ heard listener.old (told_of_text last self.now at.c at.r op.now)) }
    {
        if listener.listens() {
            let more = self.told_of_text(last, op, at)?;
            listener.hear(more)?;
        }
        Ok(())
    }

    /// Tells what an operation of the grid by the perspective changes.
    pub(crate) fn tell_grid(
        &self,
        listener: &mut Listener,
        last: u64,
        op: &CellOp,
        at: Perspective,
    ) -> Result<(), OutOfMemory>
        ensures { OnOk result (listener.new ≡ heard listener.old (told_of_grid last self.now at.c at.r op.now)) }
    {
        if listener.listens() {
            let more = self.told_of_grid(last, op, at)?;
            listener.hear(more)?;
        }
        Ok(())
    }

    /// Tells what a sub-operation of the client's own changes at its stage.
    pub(crate) fn tell_local(
        &self,
        listener: &mut Listener,
        stage: u64,
        op: &SubOp,
    ) -> Result<(), OutOfMemory>
        ensures { OnOk result (listener.new ≡ heard listener.old (told_local stage self.now (sub_operation_of op.now))) }
    {
        if listener.listens() {
            let more = self.told_local(stage, op)?;
            listener.hear(more)?;
        }
        Ok(())
    }
}
