//! What the client's own operations make of a document.

ghost use Rattle.std.specs.Prelude.{◌≡◌, ◌≤◌, ◌++◌, [], Err, IfErr, IfOk, Ok, OnOk, length, map};
ghost use Rattle.ft_op.specs.Operation.{sub_operations};
ghost use Rattle.ft_msg.specs.Client.{local_sub_operation, local_sub_operations};
ghost use Rattle.ft_changes.specs.Listeners.{heard};
ghost use Rattle.ft_changes.specs.Told.{told_locals};
ghost use Rattle.ft_plain_document.specs.OwnEdits.{AnswersSteps, AnswersSubOperation, LeavesRefused, TakesStage};
ghost use Rattle.ft_plain_document.specs.SubOperations.{sub_operation_of};

use crate::documents::PlainDocument;
use crate::documents::own_edits::NotTaken;
use crate::moved::fill_with;
use crate::stages::{PlainStage, PlainStages, SubOp, sub_operations};
use ft_base::OutOfMemory;
use ft_base::moved::{after, all_three, beside, both};
use ft_changes::Listener;
use ft_op::ChannelOp;
use ft_plain_lists::ElementNames;
use std::collections::VecDeque;

impl PlainDocument {
    /// Takes an operation of the client's own as pending stages from `first` on, after these pending ones; the listener
    /// hears how the shown elements of the lists change with each.
    ///
    /// After a refusal nothing is said of what it heard.
    pub fn edit(
        &mut self,
        pending: &[PlainStage],
        first: u64,
        op: &ChannelOp,
        listener: &mut Listener,
    ) -> Result<PlainStages, NotTaken>
        ensures answers { AnswersSteps (local_sub_operations self.old pending.now first (sub_operations op.now)) self.new result }
        ensures refused { LeavesRefused self.old self.new result }
        ensures told { OnOk result (listener.new ≡ heard listener.old (told_locals self.old pending.now first (sub_operations op.now))) }
    {
        let ops = sub_operations(self.alloc(), op)?;
        if ops.len() <= 1 {
            return self.edit_all(pending, first, ops, listener);
        }
        self.edit_copy(pending, first, ops, listener)
    }

    // Takes these sub-operations in order, first in a copy: a refusal leaves the document as it was.
    fn edit_copy(
        &mut self,
        pending: &[PlainStage],
        first: u64,
        ops: VecDeque<SubOp>,
        listener: &mut Listener,
    ) -> Result<PlainStages, NotTaken>
        ensures answers { AnswersSteps (local_sub_operations self.old pending.now first (map sub_operation_of ops.items)) self.new result }
        ensures refused { LeavesRefused self.old self.new result }
        ensures told { OnOk result (listener.new ≡ heard listener.old (told_locals self.old pending.now first (map sub_operation_of ops.items))) }
    {
        let (mut copy, ops) = beside(self.copy(), ops)?;
        let stages = copy.edit_all(pending, first, ops, listener);
        fill_with(self, copy, stages)
    }

    // Takes these sub-operations in order.
    fn edit_all(
        &mut self,
        pending: &[PlainStage],
        first: u64,
        mut ops: VecDeque<SubOp>,
        listener: &mut Listener,
    ) -> Result<PlainStages, NotTaken>
        ensures answers { AnswersSteps (local_sub_operations self.old pending.now first (map sub_operation_of ops.items)) self.new result }
        ensures refused { length ops.items ≤ 1 → LeavesRefused self.old self.new result }
        ensures told { OnOk result (listener.new ≡ heard listener.old (told_locals self.old pending.now first (map sub_operation_of ops.items))) }
    {
        let mut stages = PlainStages::new(self.alloc());
        let done = self.take_all(pending, first, &mut ops, &mut stages, listener);
        after(done, stages)
    }

    // Takes these sub-operations in order as stages from `first` on, of which there are none so far.
    fn take_all(
        &mut self,
        pending: &[PlainStage],
        first: u64,
        ops: &mut VecDeque<SubOp>,
        stages: &mut PlainStages,
        listener: &mut Listener,
    ) -> Result<(), NotTaken>
        requires { stages.old ≡ [] }
        ensures taken { OnOk result (local_sub_operations self.old pending.now first (map sub_operation_of ops.old.items) ≡ Ok (self.new, stages.new)) }
        ensures answers { IfErr result (λ why. AnswersSteps (local_sub_operations self.old pending.now first (map sub_operation_of ops.old.items)) self.new (Err why)) }
        ensures refused { length ops.old.items ≤ 1 → IfErr result (λ why. LeavesRefused self.old self.new (Err why)) }
        ensures told { OnOk result (listener.new ≡ heard listener.old (told_locals self.old pending.now first (map sub_operation_of ops.old.items))) }
    {
        let mut stage = first;
        while let Some(op) = ops.pop_front() {
            self.tell_local(listener, stage, &op)?;
            self.take_one(pending, stages, stage, op)?;
            stage = stage.checked_add(1).ok_or(OutOfMemory)?;
        }
        Ok(())
    }

    // Takes one sub-operation as a stage behind these, after these pending ones.
    fn take_one(
        &mut self,
        pending: &[PlainStage],
        stages: &mut PlainStages,
        stage: u64,
        op: SubOp,
    ) -> Result<(), NotTaken>
        ensures taken { OnOk result (TakesStage (local_sub_operation self.old (pending.now ++ stages.old) stage (sub_operation_of op)) stage (sub_operation_of op)
            self.new stages.old stages.new) }
        ensures refused { IfErr result (λ why. AnswersSubOperation (local_sub_operation self.old (pending.now ++ stages.old) stage (sub_operation_of op))
            self.old self.new (Err why)) }
    {
        let names = self.edit_one(pending, stages.as_slice(), stage, &op);
        let (names, op) = beside(names, op)?;
        stages.push(PlainStage::new(stage, op, names))?;
        Ok(())
    }

    // Takes one sub-operation, after these pending stages and those of its own edit before it.
    fn edit_one(
        &mut self,
        pending: &[PlainStage],
        before: &[PlainStage],
        stage: u64,
        op: &SubOp,
    ) -> Result<ElementNames, NotTaken>
        ensures { AnswersSubOperation (local_sub_operation self.old (pending.now ++ before.now) stage (sub_operation_of op.now))
            self.old self.new result }
    {
        match op {
            SubOp::Text(op) => self.edit_text(stage, op),
            SubOp::Intervals(op) => self.name_own_ends(pending, before, stage, op),
            SubOp::Grid(op) => self.edit_grid(stage, op),
        }
    }

    // An equal document.
    fn copy(&self) -> Result<PlainDocument, OutOfMemory>
        ensures { IfOk result (λ copy. copy ≡ self.now) }
    {
        let texts = both(self.text.copy(), self.intervals.copy());
        let grid = all_three(self.rows.copy(), self.cols.copy(), self.cells.copy());
        let ((text, intervals), (rows, cols, cells)) = both(texts, grid)?;
        Ok(PlainDocument {
            text,
            rows,
            cols,
            intervals,
            cells,
            skipped: self.skipped,
            other: self.other,
            number: self.number,
            minimum: self.minimum,
        })
    }
}
