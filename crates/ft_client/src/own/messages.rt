//! Messages of other clients.

ghost use Rattle.std.specs.Prelude.{◌≡◌, ◌<◌, ◌≤◌, None, OnOk, ◌+◌};
ghost use Rattle.ft_op.specs.declared.operations.ChannelOp.{ChannelOp};
ghost use Rattle.ft_op.specs.Document.{effects};
ghost use Rattle.ft_op.specs.Operation.{sub_operations};
ghost use Rattle.ft_op.specs.WellFormed.{IsWellFormed};
ghost use Rattle.ft_msg.specs.Agreed.{reference_number};
ghost use Rattle.ft_msg.specs.Client.{floor};
ghost use Rattle.ft_msg.specs.Process.{process_fault};
ghost use Rattle.ft_msg.specs.WellFormed.{IsWellFormedMessage};
ghost use Rattle.ft_changes.specs.Listeners.{heard};
ghost use Rattle.ft_changes.specs.Told.{told_body, told_sub_operations};
ghost use Rattle.ft_replica.specs.Own.{HeldDocument, HoldsOne, NamesFit, with_entry};
ghost use Rattle.ft_client.specs.Holds.{HoldsTree, with_body};

use crate::own::TreeOwn;
use ft_base::{OutOfMemory, Perspective, Steps};
use ft_changes::Listener;
use ft_msg::{Body, Entry, Message};
use ft_op::{ChannelOp, GridOp};
use std::sync::ledger::{Blank, Ledger};

impl TreeOwn {
    /// Takes a message of another client, or one without an operation. The listener hears how the shown elements of the lists
    /// change.
    ///
    /// Returns `OutOfMemory` where there is no room, or a count would pass its greatest number.
    pub(crate) fn take_in<G: Ledger>(
        &mut self,
        entry: &Entry,
        listener: &mut Listener,
        blank: Blank,
    ) -> Result<(), OutOfMemory>
        requires name { blank.name ≡ G.name }
        requires parts { blank.parts ≡ G.parts }
        requires one { 0 < blank.parts }
        requires formed { IsWellFormedMessage entry.now.msg }
        requires known { HoldsOne HoldsTree self.old (λ p. process_fault p entry.now ≡ None) }
        ensures takes { (held : HeldDocument) → NamesFit held → HoldsTree self.old held → OnOk result (HoldsTree self.new (with_entry entry.now held)) }
        ensures told { (held : HeldDocument) → NamesFit held → HoldsTree self.old held
            → OnOk result (listener.new ≡ heard listener.old (told_body held.last held.doc entry.now.msg.seq entry.now.origin (reference_number entry.now.msg.ref_seq) entry.now.msg.body)) }
    {
        self.take_body::<G>(entry, listener, blank)?;
        self.numbers.take(entry);
        Ok(())
    }

    // The same, but that the numbers of the last message stay.
    fn take_body<G: Ledger>(
        &mut self,
        entry: &Entry,
        listener: &mut Listener,
        blank: Blank,
    ) -> Result<(), OutOfMemory>
        requires name { blank.name ≡ G.name }
        requires parts { blank.parts ≡ G.parts }
        requires one { 0 < blank.parts }
        requires formed { IsWellFormedMessage entry.now.msg }
        requires known { HoldsOne HoldsTree self.old (λ p. process_fault p entry.now ≡ None) }
        ensures takes { (held : HeldDocument) → NamesFit held → HoldsTree self.old held → OnOk result (HoldsTree self.new (with_body entry.now held)) }
        ensures told { (held : HeldDocument) → NamesFit held → HoldsTree self.old held
            → OnOk result (listener.new ≡ heard listener.old (told_body held.last held.doc entry.now.msg.seq entry.now.origin (reference_number entry.now.msg.ref_seq) entry.now.msg.body)) }
    {
        match &entry.msg.body {
            Body::Nothing => Ok(()),
            Body::Op(op) => {
                let at = Perspective {
                    r: reference_number(&entry.msg),
                    c: entry.origin,
                };
                let mut steps = Steps::<G>::new(blank);
                self.apply(op, entry.msg.seq, at, listener, &mut steps)
            }
            Body::Elsewhere(_) => self.numbers.count_other(),
        }
    }

    // Applies an operation under number `seq`.
    //
    // Returns `OutOfMemory` where there is no room, or a count would pass its greatest number.
    fn apply<G: Ledger>(
        &mut self,
        op: &ChannelOp,
        seq: u64,
        at: Perspective,
        listener: &mut Listener,
        steps: &mut Steps<G>,
    ) -> Result<(), OutOfMemory>
        requires formed { IsWellFormed op.now }
        requires known { HoldsOne HoldsTree self.old (λ p. floor p ≤ at.r) }
        ensures applied { (held : HeldDocument) → NamesFit held → HoldsTree self.old held
            → OnOk result (HoldsTree self.new (record held { doc = effects held.doc seq at.c at.r (sub_operations op.now) })) }
        ensures told { (held : HeldDocument) → NamesFit held → HoldsTree self.old held
            → OnOk result (listener.new ≡ heard listener.old (told_sub_operations held.last held.doc seq at.c at.r (sub_operations op.now))) }
    {
        match op {
            ChannelOp::Text(op) => {
                let skipped = self.text.apply_telling(op, seq, at, listener, steps)?;
                self.numbers.skip(skipped)
            }
            ChannelOp::Grid(op) => self.apply_grid(op, seq, at, listener, steps),
        }
    }

    // Applies an operation of the table under number `seq`.
    //
    // Returns `OutOfMemory` where there is no room, or a count would pass its greatest number.
    fn apply_grid<G: Ledger>(
        &mut self,
        op: &GridOp,
        seq: u64,
        at: Perspective,
        listener: &mut Listener,
        steps: &mut Steps<G>,
    ) -> Result<(), OutOfMemory>
        requires formed { IsWellFormed (ChannelOp.Grid op.now) }
        requires known { HoldsOne HoldsTree self.old (λ p. floor p ≤ at.r) }
        ensures applied { (held : HeldDocument) → NamesFit held → HoldsTree self.old held
            → OnOk result (HoldsTree self.new (record held { doc = effects held.doc seq at.c at.r (sub_operations (ChannelOp.Grid op.now)) })) }
        ensures told { (held : HeldDocument) → NamesFit held → HoldsTree self.old held
            → OnOk result (listener.new ≡ heard listener.old (told_sub_operations held.last held.doc seq at.c at.r (sub_operations (ChannelOp.Grid op.now)))) }
    {
        let rows = self.table.rows_made();
        let cols = self.table.cols_made();
        let skipped = self.table.apply_telling(op, seq, at, listener, steps)?;
        let rows = more(rows, self.table.rows_made());
        let cols = more(cols, self.table.cols_made());
        self.numbers.count_units(rows, cols)?;
        self.numbers.skip(skipped)
    }
}

// How many more the second number is than the first, which is no greater.
fn more(before: u64, after: u64) -> u64
    requires { before ≤ after }
    ensures { after ≡ before + result }
{
    after - before
}

/// The reference number of a message as a count: nothing is known to one below 0.
pub(crate) fn reference_number(msg: &Message) -> u64
    ensures { result ≡ reference_number msg.now.ref_seq }
{
    if msg.ref_seq < 0 {
        0
    } else {
        msg.ref_seq as u64
    }
}
