//! What a document of trees tells of a message and of an edit.

ghost use Rattle.std.specs.Prelude.{◌≡◌, ◌+◌, ◌<◌, ◌≤◌, IsTrue, OnOk, true};
ghost use Rattle.ft_op.specs.Operation.{sub_operations};
ghost use Rattle.ft_op.specs.WellFormed.{IsWellFormed};
ghost use Rattle.ft_msg.specs.declared.messages.Body.TheVariants.{Op};
ghost use Rattle.ft_msg.specs.Client.{floor, local_sub_operations};
ghost use Rattle.ft_changes.specs.Beside.{body_moves_ends_alike};
ghost use Rattle.ft_changes.specs.Listeners.{heard};
ghost use Rattle.ft_changes.specs.Told.{told_locals};
ghost use Rattle.ft_replica.specs.Own.{AnswersStages, HeldDocument, HoldsOne, NamesFit};
ghost use Rattle.ft_client.specs.Holds.{HoldsTree};

use crate::own::TreeOwn;
use crate::own::messages::reference_number;
use ft_base::{OutOfMemory, Perspective, Steps};
use ft_changes::{Listener, ShownRest, ViewChanges};
use ft_msg::{Body, EditFault, Entry};
use ft_op::{ChannelOp, GridOp};
use ft_replica::{Compared, TellingDocument, ToldEdit};
use std::marker::Brand;
use std::sync::ledger::{Blank, Ledger};

impl TellingDocument for TreeOwn {
    fn edit_telling(&mut self, last: u64, op: &ChannelOp) -> Result<ToldEdit, EditFault> {
        let mut listener = Listener::new(self.text.allocator());
        let stages = self.edit_uncounted::<Brand>(last, op, &mut listener, Blank::new(1))?;
        Ok(ToldEdit {
            stages,
            changes: listener.into_changes(),
        })
    }

    fn take_telling(&mut self, _last: u64, entry: &Entry) -> Result<ViewChanges, OutOfMemory> {
        let mut listener = Listener::new(self.text.allocator());
        self.take_in::<Brand>(entry, &mut listener, Blank::new(1))?;
        Ok(listener.into_changes())
    }

    fn shown_rest(
        &self,
        last: u64,
        compared: Compared,
        op: &ChannelOp,
    ) -> Result<ShownRest, OutOfMemory> {
        self.rest_at(last, compared, op)
    }

    fn moves_ends_alike(&self, _last: u64, entry: &Entry) -> bool {
        match &entry.msg.body {
            Body::Op(op) => {
                let at = Perspective {
                    r: reference_number(&entry.msg),
                    c: entry.origin,
                };
                self.operation_moves_ends_alike(op, at)
            }
            Body::Nothing => true,
            Body::Elsewhere(_) => true,
        }
    }
}

impl TreeOwn {
    // Whether a message with this operation moves no end of an interval elsewhere than it moves the lists; it may say no where
    // that is so.
    fn operation_moves_ends_alike(&self, op: &ChannelOp, at: Perspective) -> bool
        requires formed { IsWellFormed op.now }
        requires known { HoldsOne HoldsTree self.now (λ p. floor p ≤ at.r) }
        ensures { (held : HeldDocument) → NamesFit held → HoldsTree self.now held → IsTrue result → body_moves_ends_alike held.doc at.c at.r (Op op.now) ≡ true }
    {
        match op {
            ChannelOp::Text(op) => self.text.moves_ends_alike(op, at),
            ChannelOp::Grid(GridOp::One(_)) => true,
            ChannelOp::Grid(GridOp::Group(_)) => false,
        }
    }

    // As `edit_heard`, where nobody counts the steps.
    fn edit_uncounted<G: Ledger>(
        &mut self,
        last: u64,
        op: &ChannelOp,
        listener: &mut Listener,
        blank: Blank,
    ) -> Result<usize, EditFault>
        requires name { blank.name ≡ G.name }
        requires parts { blank.parts ≡ G.parts }
        requires one { 0 < blank.parts }
        requires formed { IsWellFormed op.now }
        requires known { HoldsOne HoldsTree self.old (λ p. p.last_stage ≡ last) }
        ensures answers { (held : HeldDocument) → NamesFit held → held.last ≡ last → HoldsTree self.old held
            → AnswersStages (HoldsTree self.new) held (local_sub_operations held.doc held.stages (last + 1) (sub_operations op.now)) result }
        ensures told { (held : HeldDocument) → NamesFit held → held.last ≡ last → HoldsTree self.old held
            → OnOk result (listener.new ≡ heard listener.old (told_locals held.doc held.stages (last + 1) (sub_operations op.now))) }
    {
        let mut steps = Steps::<G>::new(blank);
        self.edit_heard(last, op, listener, &mut steps)
    }
}
