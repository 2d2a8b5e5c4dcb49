//! What a client asks of its document that tells what changes in its view.

use crate::comparing::Compared;
use crate::document::OwnDocument;
use ft_base::OutOfMemory;
use ft_changes::{ShownRest, ViewChanges};
use ft_msg::{EditFault, Entry};
use ft_op::ChannelOp;

/// What an edit made of a document.
#[derive(Drop)]
pub struct ToldEdit {
    /// How many stages it has.
    pub stages: usize,
    /// The changes of the lists.
    pub changes: ViewChanges,
}

/// A document that tells, with a message and with an edit, how the lists change that it shows: the elements of the text,
/// the rows and the columns. Of its cells and its intervals the client tells, by what is shown before and after.
///
/// As for the calls without telling, each clause is about every document that it holds and in which the names fit.
pub trait TellingDocument: OwnDocument {
    ghost use Rattle.std.specs.Prelude.{◌≡◌, ◌+◌, ℕ, true, None, IfOk, IsTrue, OnOk};
    ghost use Rattle.ft_op.specs.Operation.{sub_operations};
    ghost use Rattle.ft_op.specs.WellFormed.{IsWellFormed};
    ghost use Rattle.ft_msg.specs.Agreed.{reference_number};
    ghost use Rattle.ft_msg.specs.Client.{NaiveClient, local_sub_operations, stages_of};
    ghost use Rattle.ft_msg.specs.Process.{process_fault};
    ghost use Rattle.ft_msg.specs.WellFormed.{IsWellFormedMessage};
    ghost use Rattle.ft_changes.specs.Beside.{entry_moves_ends_alike};
    ghost use Rattle.ft_changes.specs.Rest.{rest_of};
    ghost use Rattle.ft_changes.specs.Shown.{shown_content};
    ghost use Rattle.ft_changes.specs.Told.{told_body, told_locals};
    ghost use Rattle.ft_laws_names.specs.WellNamed.{IsWellNamed};
    ghost use Rattle.ft_replica.specs.Comparing.{compared_part};
    ghost use Rattle.ft_replica.specs.Own.{AnswersStages, HeldDocument, HoldsOne, NamesFit, held_by, with_entry};
    ghost use Rattle.ft_replica.specs.Telling.{counted};

    /// As `edit`, and tells how the lists change, where `last` is the last stage before it.
    fn edit_telling(&mut self, last: u64, op: &ChannelOp) -> Result<ToldEdit, EditFault>
        requires formed { IsWellFormed op.now }
        requires known { HoldsOne Self.holds self.old (λ p. p.last_stage ≡ last) }
        ensures answers { (held : HeldDocument) → NamesFit held → held.last ≡ last → Self.holds self.old held
            → AnswersStages (Self.holds self.new) held (local_sub_operations held.doc held.stages (last + 1) (sub_operations op.now)) (counted result) }
        ensures told { (held : HeldDocument) → NamesFit held → held.last ≡ last → Self.holds self.old held
            → IfOk result (λ edit. edit.changes ≡ told_locals held.doc held.stages (last + 1) (sub_operations op.now)) };

    /// As `take`, and tells how the lists change, where `last` is the last stage.
    fn take_telling(&mut self, last: u64, entry: &Entry) -> Result<ViewChanges, OutOfMemory>
        requires formed { IsWellFormedMessage entry.now.msg }
        requires known { HoldsOne Self.holds self.old (λ p. (process_fault p entry.now ≡ None) × (p.last_stage ≡ last)) }
        ensures takes { (held : HeldDocument) → NamesFit held → Self.holds self.old held → OnOk result (Self.holds self.new (with_entry entry.now held)) }
        ensures told { (held : HeldDocument) → NamesFit held → held.last ≡ last → Self.holds self.old held
            → IfOk result (λ changes. changes ≡ told_body last held.doc entry.now.msg.seq entry.now.origin (reference_number entry.now.msg.ref_seq) entry.now.msg.body) };

    /// What is compared of what is shown at the last stage beside the elements, and how many these are, with a step of this
    /// operation. Cells that aren't compared are left empty, and cost nothing; intervals that aren't are left out, and those that
    /// the operation or a pending stage is on are looked up by their names.
    fn shown_rest(
        &self,
        last: u64,
        compared: Compared,
        op: &ChannelOp,
    ) -> Result<ShownRest, OutOfMemory>
        requires { HoldsOne Self.holds self.now (λ p. p.last_stage ≡ last) }
        ensures { (low : ℕ) (p : NaiveClient) → IsWellNamed p → p.last_stage ≡ last → Self.holds self.now (held_by low p)
            → IfOk result (λ rest. rest ≡ rest_of (compared_part compared op.now (stages_of p) (shown_content p))) };

    /// Whether another client's message moves no end of an interval elsewhere than it moves the lists. It may say no where it
    /// doesn't look far enough; then all intervals are compared. It takes no memory.
    fn moves_ends_alike(&self, last: u64, entry: &Entry) -> bool
        requires formed { IsWellFormedMessage entry.now.msg }
        requires known { HoldsOne Self.holds self.now (λ p. (process_fault p entry.now ≡ None) × (p.last_stage ≡ last)) }
        ensures { (low : ℕ) (p : NaiveClient) → IsWellNamed p → p.last_stage ≡ last → Self.holds self.now (held_by low p)
            → IsTrue result → entry_moves_ends_alike p entry.now ≡ true };
}
