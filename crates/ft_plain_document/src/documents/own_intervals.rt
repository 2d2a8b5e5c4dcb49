//! What the client's own interval operations mean for a document, and which intervals are shown while edits
//! are pending.

ghost use Rattle.std.specs.Prelude.{◌≡◌, ◌++◌, IfOk, OnOk};
ghost use Rattle.ft_op.specs.Document.{ends_of};
ghost use Rattle.ft_op.specs.Intervals.{settle_elements, settle_ends};
ghost use Rattle.ft_op.specs.Stages.{intervals_after_stage, shown_intervals};
ghost use Rattle.ft_msg.specs.Client.{id_fault, local_interval};
ghost use Rattle.ft_plain_document.specs.OwnEdits.{AnswersSubOperation};
ghost use Rattle.ft_plain_document.specs.SubOperations.{sub_operation_of};

use crate::documents::PlainDocument;
use crate::documents::own_edits::{NotTaken, out_of_range};
use crate::stages::{PlainStage, SubOp};
use ft_base::OutOfMemory;
use ft_msg::EditFault;
use ft_op::{Ends, TextOp};
use ft_plain_lists::{
    Before, ElementNames, PlainElement, PlainIntervals, elements_at_given_ends, given_ends_fit,
};

impl PlainDocument {
    /// The elements that an interval operation of the client's own names, after these pending stages and those
    /// of its own edit before it; its id is tested before its ends.
    pub(crate) fn name_own_ends(
        &self,
        pending: &[PlainStage],
        before: &[PlainStage],
        stage: u64,
        op: &TextOp,
    ) -> Result<ElementNames, NotTaken>
        ensures { AnswersSubOperation (local_interval self.now (pending.now ++ before.now) stage op.now) self.now self.now result }
    {
        let shown = self.settled_before(pending, before)?;
        if let Some(fault) = id_fault(&shown, op) {
            return Err(NotTaken::Refused(fault));
        }
        let ends = ends_of(op);
        if !given_ends_fit(&self.text, ends, Before(stage)) {
            return Err(out_of_range(&self.text, stage));
        }
        Ok(elements_at_given_ends(&self.text, ends, Before(stage)))
    }

    // The intervals after these pending stages, and then these.
    fn settled_before(
        &self,
        pending: &[PlainStage],
        before: &[PlainStage],
    ) -> Result<PlainIntervals, OutOfMemory>
        ensures { IfOk result (λ shown. shown ≡ shown_intervals self.now.text.items self.now.intervals (pending.now ++ before.now)) }
    {
        let mut shown = self.settled_intervals(pending)?;
        settle_stages(&mut shown, self.text.as_slice(), before)?;
        Ok(shown)
    }

    /// The intervals after these pending stages.
    pub fn settled_intervals(&self, pending: &[PlainStage]) -> Result<PlainIntervals, OutOfMemory>
        ensures { IfOk result (λ shown. shown ≡ shown_intervals self.now.text.items self.now.intervals pending.now) }
    {
        let mut shown = self.intervals.copy()?;
        settle_stages(&mut shown, self.text.as_slice(), pending)?;
        Ok(shown)
    }
}

// Takes the intervals through these stages: at each every end is settled, and then its operation applied
// with its own ends settled.
fn settle_stages(
    shown: &mut PlainIntervals,
    items: &[PlainElement],
    stages: &[PlainStage],
) -> Result<(), OutOfMemory>
    ensures { OnOk result (shown.new ≡ shown_intervals items.now shown.old stages.now) }
{
    for stage in stages {
        settle_stage(shown, items, stage)?;
    }
    Ok(())
}

// The same for one stage.
fn settle_stage(
    shown: &mut PlainIntervals,
    items: &[PlainElement],
    stage: &PlainStage,
) -> Result<(), OutOfMemory>
    ensures { OnOk result (shown.new ≡ intervals_after_stage stage.now.sub_operation (settle_elements items.now stage.now.stage stage.now.names)
        (settle_ends items.now stage.now.stage shown.old)) }
{
    shown.settle_ends(items, stage.stage())?;
    let names = stage.names().settled(items, stage.stage());
    apply_to_intervals(shown, stage.sub_operation(), &names)
}

/// Applies the sub-operation, which names these elements, to the intervals, if it is one on them.
pub fn apply_to_intervals(
    intervals: &mut PlainIntervals,
    sub_operation: &SubOp,
    names: &ElementNames,
) -> Result<(), OutOfMemory>
    ensures { OnOk result (intervals.new ≡ intervals_after_stage (sub_operation_of sub_operation.now) names.now intervals.old) }
{
    match sub_operation {
        SubOp::Intervals(op) => intervals.apply(op, names),
        SubOp::Text(_) | SubOp::Grid(_) => Ok(()),
    }
}

// The fault of the id of an interval operation: in use for a new interval, not there for a changed or a
// deleted one.
fn id_fault(intervals: &PlainIntervals, op: &TextOp) -> Option<EditFault>
    ensures { result ≡ id_fault intervals.now op.now }
{
    match op {
        TextOp::IntervalAdd { label, id, .. } => {
            if intervals.has(label, id) {
                Some(EditFault::IdInUse)
            } else {
                None
            }
        }
        TextOp::IntervalChange { label, id, .. } | TextOp::IntervalDelete { label, id } => {
            if intervals.has(label, id) {
                None
            } else {
                Some(EditFault::NoSuchInterval)
            }
        }
        TextOp::One(_) | TextOp::Group(_) => None,
    }
}

// The ends that an interval operation gives, if it gives some.
fn ends_of(op: &TextOp) -> Option<Ends>
    ensures { result ≡ ends_of op.now }
{
    match op {
        TextOp::IntervalAdd { ends, .. } => Some(*ends),
        TextOp::IntervalChange { ends, .. } => *ends,
        TextOp::IntervalDelete { .. } | TextOp::One(_) | TextOp::Group(_) => None,
    }
}
