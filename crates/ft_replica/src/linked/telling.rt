//! What a client tells of edits and of messages.

ghost use Rattle.std.specs.Prelude.{◌≡◌, ◌+◌, ◌&&◌, ◌||◌, ◌++◌, ◌∷◌, [], ℕ, IfOk, IsTrue, None, Ok, OnErr, OnOk, false, nat_eq, take, true};
ghost use Rattle.std.specs.List.{list_any};
ghost use Rattle.ft_op.specs.Document.{Document};
ghost use Rattle.ft_op.specs.Operation.{sub_operations};
ghost use Rattle.ft_op.specs.WellFormed.{IsWellFormed, is_count};
ghost use Rattle.ft_msg.specs.Answers.{WantOfMemory, edit_fault_kind};
ghost use Rattle.ft_msg.specs.declared.messages.Body.TheVariants.{Op};
ghost use Rattle.ft_msg.specs.Client.{NaiveClient, local_edit, local_sub_operations, sent_as, stages_of};
ghost use Rattle.ft_msg.specs.Process.{after_entry, is_op, is_own_join, process_fault};
ghost use Rattle.ft_msg.specs.WellFormed.{IsWellFormedMessage};
ghost use Rattle.ft_changes.specs.Beside.{entry_moves_ends_alike};
ghost use Rattle.ft_changes.specs.Rest.{are_of_lists, rest_of};
ghost use Rattle.ft_changes.specs.Shown.{ShownContent, after_changes, shown_content};
ghost use Rattle.ft_changes.specs.Told.{told_of_edit, told_of_entry, told_rest};
ghost use Rattle.ft_laws_compaction.specs.Keeping.{IsMadeOrKept};
ghost use Rattle.ft_laws_names.specs.WellNamed.{IsWellNamed};
ghost use Rattle.ft_replica.specs.Comparing.{compared_part};
ghost use Rattle.ft_replica.specs.Linked.{Anyone, AnswersLinked, IsLinkedAs, KeepsLink, RunsForOne, TakesEntry};
ghost use Rattle.ft_replica.specs.Own.{AnswersStages, HeldDocument, HoldsOne, NamesFit, held_by, with_entry};
ghost use Rattle.ft_replica.specs.Telling.{AddsTold, AddsToldFewer, IsEnough, TakesOther, counted};
ghost use Rattle.ft_replica.specs.Unsent.{with_sent};

use crate::comparing::Compared;
use crate::linked::LinkedClient;
use crate::telling::{TellingDocument, ToldEdit};
use ft_base::{List, OutOfMemory};
use ft_changes::{ShownRest, ViewChanges, add_rest};
use ft_msg::{Body, EditFault, Entry};
use ft_op::ChannelOp;
use std::mem::replace;

impl<D: TellingDocument> LinkedClient<D> {
    /// As `edit`, and adds what changes in the view.
    ///
    /// After an error nothing is added.
    pub fn edit_telling(
        &mut self,
        op: &ChannelOp,
        changes: &mut ViewChanges,
    ) -> Result<(), EditFault>
        requires formed { IsWellFormed op.now }
        requires known { RunsForOne D.holds self.old Anyone }
        ensures answers { AnswersLinked D.holds edit_fault_kind (λ p. local_edit p op.now) self.old self.new result }
        ensures told { OnOk result (AddsTold D.holds (λ p. told_of_edit p op.now) self.old changes.old changes.new) }
        ensures same { OnErr result (changes.new ≡ changes.old) }
    {
        let ref_seq = self.doc.number();
        let edit = edit_document(&mut self.doc, self.last_stage, op)?;
        if self.keep_telling(edit, ref_seq, op, changes).is_err() {
            return Err(EditFault::OutOfMemory);
        }
        Ok(())
    }

    // Keeps an edit as pending, queues its draft, if it is sent, and adds its changes.
    //
    // Returns `OutOfMemory` where there is no room for that, or a count would pass its greatest number, and then
    // nothing changed.
    fn keep_telling(
        &mut self,
        edit: ToldEdit,
        ref_seq: u64,
        op: &ChannelOp,
        changes: &mut ViewChanges,
    ) -> Result<(), OutOfMemory>
        requires ref_seq { IsTrue (is_count ref_seq) }
        requires formed { IsWellFormed op.now }
        ensures ok { let sent = sent_as self.old.link self.old.box.next op.now in OnOk result (self.new ≡ record self.old {
          last_stage = self.old.last_stage + edit.stages;
          box = with_sent sent ref_seq self.old.box;
          pending = self.old.pending ++ (record { count = edit.stages; ref_seq = ref_seq; sent = sent } ∷ []);
        }) }
        ensures err { OnErr result (self.new ≡ self.old) }
        ensures added { OnOk result (changes.new ≡ changes.old ++ edit.changes) }
        ensures same { OnErr result (changes.new ≡ changes.old) }
    {
        let before = changes.len();
        let ToldEdit {
            stages,
            changes: told,
        } = edit;
        changes.append(told)?;
        if self.keep_edit(stages, ref_seq, op).is_err() {
            shorten(changes, before);
            return Err(OutOfMemory);
        }
        Ok(())
    }

    /// As `process`, and adds what changes in the view.
    ///
    /// After an error nothing is added.
    pub fn process_telling(
        &mut self,
        entry: &Entry,
        changes: &mut ViewChanges,
    ) -> Result<(), OutOfMemory>
        requires formed { IsWellFormedMessage entry.now.msg }
        requires known { RunsForOne D.holds self.old (λ p. process_fault p entry.now ≡ None) }
        ensures ok { OnOk result (TakesEntry D.holds entry.now self.old self.new) }
        ensures err { OnErr result (KeepsLink self.old self.new) }
        ensures told { OnOk result (AddsToldFewer D.holds (λ p. told_of_entry p entry.now) self.old changes.old changes.new) }
        ensures same { OnErr result (changes.new ≡ changes.old) }
    {
        self.tidy()?;
        self.take_telling(entry, changes)?;
        Ok(())
    }

    // As `take`, and adds what changes in the view: nothing by the client's own join or its own message, nor without an
    // operation.
    //
    // After an error nothing is added.
    fn take_telling(&mut self, entry: &Entry, changes: &mut ViewChanges) -> Result<(), OutOfMemory>
        requires formed { IsWellFormedMessage entry.now.msg }
        requires known { RunsForOne D.holds self.old (λ p. process_fault p entry.now ≡ None) }
        ensures answers { AnswersLinked D.holds (λ _. WantOfMemory) (λ p. Ok (after_entry p entry.now)) self.old self.new result }
        ensures told { OnOk result (AddsTold D.holds (λ p. told_of_entry p entry.now) self.old changes.old changes.new) }
        ensures same { OnErr result (changes.new ≡ changes.old) }
    {
        if self.is_from_itself(entry) {
            return self.take(entry);
        }
        match &entry.msg.body {
            Body::Op(op) => self.take_operation(entry, op, changes),
            Body::Nothing => self.take(entry),
            Body::Elsewhere(_) => self.take(entry),
        }
    }

    // Takes the message of another client with this operation, and adds what changes in the view.
    //
    // After an error nothing is added.
    fn take_operation(
        &mut self,
        entry: &Entry,
        op: &ChannelOp,
        changes: &mut ViewChanges,
    ) -> Result<(), OutOfMemory>
        requires formed { IsWellFormedMessage entry.now.msg }
        requires known { RunsForOne D.holds self.old (λ p. process_fault p entry.now ≡ None) }
        requires other { (is_own_join self.old.link entry.now.msg.kind entry.now.origin || (is_op entry.now.msg.body && list_any (nat_eq entry.now.origin) self.old.conns)) ≡ false }
        requires operation { entry.now.msg.body ≡ Op op.now }
        ensures answers { AnswersLinked D.holds (λ _. WantOfMemory) (λ p. Ok (after_entry p entry.now)) self.old self.new result }
        ensures told { OnOk result (AddsTold D.holds (λ p. told_of_entry p entry.now) self.old changes.old changes.new) }
        ensures same { OnErr result (changes.new ≡ changes.old) }
    {
        let compared = Compared::by_message(self.moves_ends_alike(entry), op);
        let told = take_into_document(&mut self.doc, self.last_stage, compared, op, entry)?;
        changes.append(told)?;
        Ok(())
    }

    // Whether another client's message moves no end of an interval elsewhere than it moves the lists. It may say no where that is
    // so and something is pending.
    fn moves_ends_alike(&self, entry: &Entry) -> bool
        requires formed { IsWellFormedMessage entry.now.msg }
        requires known { RunsForOne D.holds self.now (λ p. process_fault p entry.now ≡ None) }
        ensures { (start : Document) (low : ℕ) (p : NaiveClient) → IsMadeOrKept start p → IsLinkedAs D.holds low self.now p
            → IsTrue result → entry_moves_ends_alike p entry.now ≡ true }
    {
        let pending = self.pending.len();
        if pending == 0 {
            return true;
        }
        self.doc.moves_ends_alike(self.last_stage, entry)
    }
}

// Takes the next message, which comes from another client and has this operation, and tells what changes in the view, where
// it is enough to compare so much of what is shown beside the lists.
//
// Returns `OutOfMemory` where there is no room for that, or a number would pass its greatest.
fn take_into_document<D: TellingDocument>(
    doc: &mut D,
    last: u64,
    compared: Compared,
    op: &ChannelOp,
    entry: &Entry,
) -> Result<ViewChanges, OutOfMemory>
    requires formed { IsWellFormedMessage entry.now.msg }
    requires known { HoldsOne D.holds doc.old (TakesOther entry.now last) }
    ensures takes { (held : HeldDocument) → NamesFit held → D.holds doc.old held → OnOk result (D.holds doc.new (with_entry entry.now held)) }
    ensures told { (start : Document) (low : ℕ) (p : NaiveClient) → IsMadeOrKept start p → TakesOther entry.now last p → IsEnough compared op.now entry.now p → D.holds doc.old (held_by low p)
        → IfOk result (λ changes. changes ≡ told_of_entry p entry.now) }
{
    let before = doc.shown_rest(last, compared, op)?;
    let mut changes = doc.take_telling(last, entry)?;
    tell_rest(doc, last, compared, op, before, &mut changes)?;
    Ok(changes)
}

// Takes an edit of the client's own, and tells what changes in the view.
//
// Returns the refusal of the first sub-operation that can't be taken, and `OutOfMemory` where there is no room, or a
// number would pass its greatest.
fn edit_document<D: TellingDocument>(
    doc: &mut D,
    last: u64,
    op: &ChannelOp,
) -> Result<ToldEdit, EditFault>
    requires formed { IsWellFormed op.now }
    requires known { HoldsOne D.holds doc.old (λ p. p.last_stage ≡ last) }
    ensures answers { (held : HeldDocument) → NamesFit held → held.last ≡ last → D.holds doc.old held
        → AnswersStages (D.holds doc.new) held (local_sub_operations held.doc held.stages (last + 1) (sub_operations op.now)) (counted result) }
    ensures told { (start : Document) (low : ℕ) (p : NaiveClient) → IsMadeOrKept start p → p.last_stage ≡ last → D.holds doc.old (held_by low p)
        → IfOk result (λ edit. edit.changes ≡ told_of_edit p op.now) }
{
    let compared = Compared::by_edit(op);
    let Ok(before) = doc.shown_rest(last, compared, op) else {
        return Err(EditFault::OutOfMemory);
    };
    let mut edit = doc.edit_telling(last, op)?;
    let Some(last) = last.checked_add(edit.stages as u64) else {
        return Err(EditFault::OutOfMemory);
    };
    if tell_rest(doc, last, compared, op, before, &mut edit.changes).is_err() {
        return Err(EditFault::OutOfMemory);
    }
    Ok(edit)
}

// Behind changes of the lists, adds what is left to tell of what is compared, where so much was shown before them.
//
// Returns `OutOfMemory` where there is no room for it, or a number would pass its greatest.
fn tell_rest<D: TellingDocument>(
    doc: &D,
    last: u64,
    compared: Compared,
    op: &ChannelOp,
    before: ShownRest,
    changes: &mut ViewChanges,
) -> Result<(), OutOfMemory>
    requires { HoldsOne D.holds doc.now (λ p. p.last_stage ≡ last) }
    ensures { (s : ShownContent) (low : ℕ) (p : NaiveClient) → rest_of (compared_part compared op.now (stages_of p) s) ≡ before → IsTrue (are_of_lists changes.old)
        → IsWellNamed p → p.last_stage ≡ last → D.holds doc.now (held_by low p)
        → OnOk result (changes.new ≡ changes.old ++ told_rest (compared_part compared op.now (stages_of p) (after_changes s changes.old)) (compared_part compared op.now (stages_of p) (shown_content p))) }
{
    let after = doc.shown_rest(last, compared, op)?;
    add_rest(changes, before, &after)
}

// Leaves so many changes.
fn shorten<C: Drop>(changes: &mut List<C>, count: usize)
    ensures { changes.new ≡ take count changes.old }
{
    let empty = List::new(changes.allocator());
    let mut items = replace(changes, empty).into_items();
    items.truncate(count);
    *changes = List::of(items);
}
