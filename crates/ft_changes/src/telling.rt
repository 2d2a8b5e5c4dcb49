//! A replica that tells what changes in its view.

use crate::changes::ViewChanges;
use ft_msg::{EditFault, Entry, ProcessFault, Replica};
use ft_op::ChannelOp;

/// A replica that tells, with an edit and with a message, how its view changes: an editor that applies what
/// it is told to what it showed shows the view.
///
/// Connecting, losing the connection, noops, `take_outgoing` and `compact` change nothing that is shown, so they
/// tell nothing.
pub trait Telling: Replica {
    ghost use Rattle.std.specs.Prelude.{◌≡◌, OnErr, OnOk};
    ghost use Rattle.ft_op.specs.WellFormed.{IsWellFormed};
    ghost use Rattle.ft_msg.specs.Answers.{Answers, edit_fault_kind, process_fault_kind};
    ghost use Rattle.ft_msg.specs.Client.{local_edit};
    ghost use Rattle.ft_msg.specs.Process.{process};
    ghost use Rattle.ft_msg.specs.WellFormed.{IsWellFormedMessage};
    ghost use Rattle.ft_changes.specs.Told.{told_of_edit, told_of_entry};
    ghost use Rattle.ft_changes.specs.Telling.{TellsChanges};

    /// As `edit`, and adds what changes in the view.
    ///
    /// After an error nothing is added.
    fn edit_telling(&mut self, op: &ChannelOp, changes: &mut ViewChanges) -> Result<(), EditFault>
        requires { IsWellFormed op.now }
        ensures answers { Answers edit_fault_kind 0 (λ x. local_edit x op.now) (Self.state self.old) (Self.state self.new) result }
        ensures told { OnOk result (TellsChanges (λ x. local_edit x op.now) (λ x. told_of_edit x op.now) (Self.state self.old) changes.old changes.new) }
        ensures err { OnErr result (changes.new ≡ changes.old) };

    /// As `process`, and adds what changes in the view.
    ///
    /// After an error nothing is added.
    fn process_telling(
        &mut self,
        entry: &Entry,
        changes: &mut ViewChanges,
    ) -> Result<(), ProcessFault>
        requires { IsWellFormedMessage entry.now.msg }
        ensures answers { Answers process_fault_kind entry.now.origin (λ x. process x entry.now) (Self.state self.old) (Self.state self.new) result }
        ensures told { OnOk result (TellsChanges (λ x. process x entry.now) (λ x. told_of_entry x entry.now) (Self.state self.old) changes.old changes.new) }
        ensures err { OnErr result (changes.new ≡ changes.old) };
}
