//! The client's own edits of a document of trees.

ghost use Rattle.std.specs.Prelude.{◌≡◌, ◌+◌, ◌*◌, ◌≤◌, ◌^◌, ◌++◌, ℕ, IfErr, IfOk, OnOk, length};
ghost use Rattle.ft_op.specs.declared.operations.CellOp.{CellOp};
ghost use Rattle.ft_op.specs.declared.operations.GridOp.{GridOp};
ghost use Rattle.ft_op.specs.declared.operations.Target.{Target};
ghost use Rattle.ft_op.specs.declared.operations.ChannelOp.TheVariants.{Grid};
ghost use Rattle.ft_op.specs.Operation.{sub_operations, text_sub_operations};
ghost use Rattle.ft_op.specs.WellFormed.{IsWellFormed, IsWellFormedGrid, IsWellFormedText};
ghost use Rattle.ft_msg.specs.Client.{local_sub_operations};
ghost use Rattle.ft_changes.specs.Listeners.{heard};
ghost use Rattle.ft_changes.specs.Told.{told_locals};
ghost use Rattle.ft_replica.specs.Own.{AnswersStages, HeldDocument, HoldsOne, NamesFit, ReadsFew};
ghost use Rattle.ft_string.specs.Edits.{IsShort};
ghost use Rattle.ft_matrix.specs.GridStates.{depth_of};
ghost use Rattle.ft_client.specs.Holds.{HoldsTree, tree_content, units_in};
ghost use Rattle.ft_client.specs.Parts.{stages_from, text_part, units_by, units_by_all, units_of};
ghost use Rattle.ft_client.specs.Notes.{Notes};

use crate::numbers::TreeNumbers;
use crate::own::TreeOwn;
use crate::stages::{OwnStage, Part};
use ft_base::{OutOfMemory, Steps};
use ft_changes::Listener;
use ft_msg::EditFault;
use ft_op::{CellOp, ChannelOp, GridOp, Target, TextOp};
use std::collections::VecDeque;
use std::slice;
use std::sync::ledger::Ledger;

impl TreeOwn {
    /// Takes an edit as pending stages behind the last one, and returns how many. The listener hears how the shown elements of the
    /// lists change; after a refusal nothing is said of what it heard.
    ///
    /// Returns the refusal of the first sub-operation that can't be taken, and `OutOfMemory` where there is no room, or a count
    /// would pass its greatest number.
    pub(crate) fn edit_heard<G: Ledger>(
        &mut self,
        last: u64,
        op: &ChannelOp,
        listener: &mut Listener,
        steps: &mut Steps<G>,
    ) -> Result<usize, EditFault>
        requires formed { IsWellFormed op.now }
        requires known { HoldsOne HoldsTree self.old (λ p. p.last_stage ≡ last) }
        ensures answers { (held : HeldDocument) → NamesFit held → held.last ≡ last → HoldsTree self.old held
            → AnswersStages (HoldsTree self.new) held (local_sub_operations held.doc held.stages (last + 1) (sub_operations op.now)) result }
        ensures reads { ReadsFew op.now (tree_content self.old) steps.old steps.new }
        ensures told { (held : HeldDocument) → NamesFit held → held.last ≡ last → HoldsTree self.old held
            → OnOk result (listener.new ≡ heard listener.old (told_locals held.doc held.stages (last + 1) (sub_operations op.now))) }
    {
        let Some(first) = last.checked_add(1) else {
            return Err(EditFault::OutOfMemory);
        };
        match op {
            ChannelOp::Text(op) => self.edit_text(op, first, listener, steps),
            ChannelOp::Grid(op) => self.edit_table(op, first, listener, steps),
        }
    }

    // Takes an edit of the text as pending stages from `first` on, the one behind the last, and returns how many.
    fn edit_text<G: Ledger>(
        &mut self,
        op: &TextOp,
        first: u64,
        listener: &mut Listener,
        steps: &mut Steps<G>,
    ) -> Result<usize, EditFault>
        requires formed { IsWellFormedText op.now }
        requires known { HoldsOne HoldsTree self.old (λ p. p.last_stage + 1 ≡ first) }
        ensures answers { (held : HeldDocument) → NamesFit held → held.last + 1 ≡ first → HoldsTree self.old held
            → AnswersStages (HoldsTree self.new) held (local_sub_operations held.doc held.stages first (text_sub_operations op.now)) result }
        ensures reads { IsShort op.now → steps.new ≤ steps.old + 9 * (self.old.text.depth + 1) }
        ensures depth { 4 ^ self.old.text.depth ≤ length self.old.text.elements + 1 }
        ensures told { (held : HeldDocument) → NamesFit held → held.last + 1 ≡ first → HoldsTree self.old held
            → OnOk result (listener.new ≡ heard listener.old (told_locals held.doc held.stages first (text_sub_operations op.now))) }
    {
        let count = self.text.edit_telling(op, first, listener, steps)?;
        note(
            &mut self.stages,
            &mut self.numbers,
            first,
            count,
            text_part(op),
        )
    }

    // The same of the table.
    fn edit_table<G: Ledger>(
        &mut self,
        op: &GridOp,
        first: u64,
        listener: &mut Listener,
        steps: &mut Steps<G>,
    ) -> Result<usize, EditFault>
        requires formed { IsWellFormedGrid op.now }
        requires known { HoldsOne HoldsTree self.old (λ p. p.last_stage + 1 ≡ first) }
        ensures answers { (held : HeldDocument) → NamesFit held → held.last + 1 ≡ first → HoldsTree self.old held
            → AnswersStages (HoldsTree self.new) held (local_sub_operations held.doc held.stages first (sub_operations (Grid op.now))) result }
        ensures reads { (target : Target) (p count : ℕ) → op.now ≡ GridOp.One (CellOp.SpliceIn target p count)
            → steps.new ≤ steps.old + 9 * (depth_of target self.old.table + 1) }
        ensures depth { (target : Target) → 4 ^ depth_of target self.old.table ≤ length (units_in target self.old.table) + 1 }
        ensures told { (held : HeldDocument) → NamesFit held → held.last + 1 ≡ first → HoldsTree self.old held
            → OnOk result (listener.new ≡ heard listener.old (told_locals held.doc held.stages first (sub_operations (Grid op.now)))) }
    {
        let count = self.table.edit_telling(op, first, listener, steps)?;
        let Ok(rows) = units_of(Target::Rows, op) else {
            return Err(EditFault::OutOfMemory);
        };
        let Ok(cols) = units_of(Target::Cols, op) else {
            return Err(EditFault::OutOfMemory);
        };
        if self.numbers.count_units(rows, cols).is_err() {
            return Err(EditFault::OutOfMemory);
        }
        note(
            &mut self.stages,
            &mut self.numbers,
            first,
            count,
            Part::Grid,
        )
    }
}

// The part that an operation on the text is on.
fn text_part(op: &TextOp) -> Part
    ensures { result ≡ text_part op.now }
{
    match op {
        TextOp::One(_) | TextOp::Group(_) => Part::Elements,
        TextOp::IntervalAdd { .. }
        | TextOp::IntervalChange { .. }
        | TextOp::IntervalDelete { .. } => Part::Intervals,
    }
}

// How many rows, or columns, an operation puts in.
//
// Returns `OutOfMemory` where they are more than 2^64 - 1.
#[tactic(auto, using(crate::proofs::Noted::units_group))]
fn units_of(target: Target, op: &GridOp) -> Result<u64, OutOfMemory>
    ensures { IfOk result (λ n. n ≡ units_of target (sub_operations (Grid op.now))) }
{
    match op {
        GridOp::One(op) => units_by_all(target, slice::from_ref(op)),
        GridOp::Group(ops) => units_by_all(target, ops.as_slice()),
    }
}

// How many rows, or columns, operations put in.
//
// Returns `OutOfMemory` where they are more than 2^64 - 1.
fn units_by_all(target: Target, ops: &[CellOp]) -> Result<u64, OutOfMemory>
    ensures { IfOk result (λ n. n ≡ units_by_all target ops.now) }
{
    let mut count: u64 = 0;
    for op in ops {
        count = count.checked_add(units_by(target, op)).ok_or(OutOfMemory)?;
    }
    Ok(count)
}

// How many rows, or columns, an operation puts in.
fn units_by(target: Target, op: &CellOp) -> u64
    ensures { result ≡ units_by target op.now }
{
    match (target, op) {
        (
            Target::Rows,
            CellOp::SpliceIn {
                target: Target::Rows,
                count,
                ..
            },
        ) => *count,
        (
            Target::Cols,
            CellOp::SpliceIn {
                target: Target::Cols,
                count,
                ..
            },
        ) => *count,
        _ => 0,
    }
}

// Notes stages of one part behind the others, from a number on that is no higher than the next one, and returns how many they are.
//
// Returns `OutOfMemory` where there is no room for them, or their numbers would pass 2^64 - 1.
fn note(
    stages: &mut VecDeque<OwnStage>,
    numbers: &mut TreeNumbers,
    first: u64,
    count: u64,
    part: Part,
) -> Result<usize, EditFault>
    requires { first ≤ numbers.old.last + 1 }
    ensures noted { IfOk result (λ n. Notes first count part n stages.old.items stages.new.items numbers.old numbers.new) }
    ensures err { IfErr result (λ fault. fault ≡ EditFault.OutOfMemory) }
{
    if numbers.take_stages(count).is_err() {
        return Err(EditFault::OutOfMemory);
    }
    if push_stages(stages, first, count, part).is_err() {
        return Err(EditFault::OutOfMemory);
    }
    Ok(count as usize)
}

// Adds stages of one part behind the others.
#[tactic(auto, using(crate::proofs::Noted::stages_more))]
fn push_stages(
    stages: &mut VecDeque<OwnStage>,
    first: u64,
    count: u64,
    part: Part,
) -> Result<(), OutOfMemory>
    requires { first + count ≤ 2 ^ 64 }
    ensures { OnOk result (stages.new.items ≡ stages.old.items ++ stages_from first count part) }
{
    for i in 0..count {
        let stage = first + i;
        stages.push_back(OwnStage { stage, part })?;
    }
    Ok(())
}
