//! What a document over plain lists shows.

ghost use Rattle.std.specs.Prelude.{◌≡◌, ◌||◌, [], IfOk, cond, filter, length, map};
ghost use Rattle.ft_op.specs.Operation.{sub_operations};
ghost use Rattle.ft_msg.specs.Answers.{view_content};
ghost use Rattle.ft_msg.specs.Blame.{blame};
ghost use Rattle.ft_msg.specs.Client.{stages_of};
ghost use Rattle.ft_msg.specs.Content.{content};
ghost use Rattle.ft_msg.specs.Overlap.{overlap};
ghost use Rattle.ft_changes.specs.Beside.{changes_interval, is_changed_by};
ghost use Rattle.ft_changes.specs.Rest.{rest_of};
ghost use Rattle.ft_changes.specs.Shown.{shown_content};
ghost use Rattle.ft_plain.specs.Own.{client_at};
ghost use Rattle.ft_replica.specs.Comparing.{compared_intervals, compared_part};

use crate::own::PlainOwn;
use ft_attrib::Attribution;
use ft_base::{List, OutOfMemory, Text};
use ft_changes::ShownRest;
use ft_changes::named::{is_changed_by, is_operation_on};
use ft_msg::{Numbers, Runs, Spots, View};
use ft_op::ChannelOp;
use ft_plain_document::{PlainStage, SubOp};
use ft_plain_lists::{
    shown_cells, shown_count, shown_intervals, shown_markers, shown_origins, shown_runs, shown_text,
};
use ft_replica::{Compared, ComparedIntervals};
use ft_sumdoc::meeting::meeting;
use ft_sumdoc::{CellRecs, IntervalRec, IntervalRecs};

impl PlainOwn {
    /// All that it shows at the last stage, with these numbers.
    pub(crate) fn view_at(&self, last: u64, numbers: Numbers) -> Result<View, OutOfMemory>
        ensures numbers { IfOk result (λ v. v.numbers ≡ numbers) }
        ensures content { IfOk result (λ v. view_content v ≡ content (client_at last self.now)) }
    {
        Ok(View {
            numbers,
            text: self.shown_text(last)?,
            markers: self.shown_markers(last)?,
            runs: self.shown_runs(last)?,
            intervals: self.shown_intervals(last)?,
            rows: self.shown_rows(last) as u64,
            cols: self.shown_cols(last) as u64,
            cells: self.shown_cells(last)?,
        })
    }

    /// What is compared of what it shows at the last stage beside the elements, and how many these are, with a step of this
    /// operation.
    pub(crate) fn rest_at(
        &self,
        last: u64,
        compared: Compared,
        op: &ChannelOp,
    ) -> Result<ShownRest, OutOfMemory>
        ensures { let x = client_at last self.now in IfOk result (λ rest. rest ≡ rest_of (compared_part compared op.now (stages_of x) (shown_content x))) }
    {
        Ok(ShownRest {
            elements: self.shown_elements(last),
            intervals: self.compared_intervals(last, compared.intervals, op)?,
            cells: self.compared_cells(last, compared.cells)?,
        })
    }

    // The intervals that are compared.
    fn compared_intervals(
        &self,
        last: u64,
        compared: ComparedIntervals,
        op: &ChannelOp,
    ) -> Result<IntervalRecs, OutOfMemory>
        ensures { let x = client_at last self.now in IfOk result (λ intervals. intervals ≡ compared_intervals compared op.now (stages_of x) (shown_content x).intervals) }
    {
        let intervals = self.shown_intervals(last)?;
        match compared {
            ComparedIntervals::All => Ok(intervals),
            ComparedIntervals::OfOperation => Ok(those_of(op, intervals)),
            ComparedIntervals::OfOperationAndStages => {
                Ok(those_around(op, self.stages.as_slice(), intervals))
            }
        }
    }

    // The cells, if they are compared.
    fn compared_cells(&self, last: u64, compared: bool) -> Result<CellRecs, OutOfMemory>
        ensures { IfOk result (λ cells. cells ≡ cond compared (shown_content (client_at last self.now)).cells []) }
    {
        if compared {
            self.shown_cells(last)
        } else {
            Ok(CellRecs::new(self.doc.alloc()))
        }
    }

    // How many elements of the text.
    fn shown_elements(&self, last: u64) -> u64
        ensures { result ≡ length (shown_content (client_at last self.now)).elements }
    {
        shown_count(self.doc.text(), last) as u64
    }

    // The characters of the text, without the markers.
    fn shown_text(&self, last: u64) -> Result<Text, OutOfMemory>
        ensures { IfOk result (λ text. text ≡ (content (client_at last self.now)).text) }
    {
        shown_text(self.doc.alloc(), self.doc.text(), last)
    }

    // The markers with their places.
    fn shown_markers(&self, last: u64) -> Result<Spots, OutOfMemory>
        ensures { IfOk result (λ markers. markers ≡ (content (client_at last self.now)).markers) }
    {
        shown_markers(self.doc.alloc(), self.doc.text(), last)
    }

    // The runs of equal properties that aren't empty.
    fn shown_runs(&self, last: u64) -> Result<Runs, OutOfMemory>
        ensures { IfOk result (λ runs. runs ≡ (content (client_at last self.now)).runs) }
    {
        shown_runs(self.doc.alloc(), self.doc.text(), last)
    }

    /// Who inserted each visible element of the text.
    pub(crate) fn origins_at(&self, last: u64) -> Result<Attribution, OutOfMemory>
        ensures { IfOk result (λ origins. origins ≡ blame (client_at last self.now)) }
    {
        shown_origins(self.doc.alloc(), self.doc.text(), last)
    }

    // The intervals after all pending stages, by rising label and id.
    fn shown_intervals(&self, last: u64) -> Result<IntervalRecs, OutOfMemory>
        ensures { IfOk result (λ intervals. intervals ≡ (content (client_at last self.now)).intervals) }
    {
        let settled = self.doc.settled_intervals(self.stages.as_slice())?;
        let alloc = self.doc.alloc();
        shown_intervals(alloc, self.doc.text(), settled.as_slice(), last)
    }

    /// The intervals of the label after all pending stages that meet the places from `a` to `b`, by rising id.
    pub(crate) fn overlapping_at(
        &self,
        last: u64,
        label: &Text,
        a: u64,
        b: u64,
    ) -> Result<Vec<IntervalRec>, OutOfMemory>
        ensures { IfOk result (λ found. found.items ≡ overlap (client_at last self.now) label.now a b) }
    {
        let intervals = self.shown_intervals(last)?;
        meeting(self.doc.alloc(), intervals.as_slice(), label, a, b)
    }

    // How many rows.
    fn shown_rows(&self, last: u64) -> usize
        ensures { result ≡ (content (client_at last self.now)).rows }
    {
        shown_count(self.doc.rows(), last)
    }

    // How many columns.
    fn shown_cols(&self, last: u64) -> usize
        ensures { result ≡ (content (client_at last self.now)).cols }
    {
        shown_count(self.doc.cols(), last)
    }

    // The cells that have a value after the writes of all pending stages.
    fn shown_cells(&self, last: u64) -> Result<CellRecs, OutOfMemory>
        ensures { IfOk result (λ cells. cells ≡ (content (client_at last self.now)).cells) }
    {
        let written = self.doc.written_cells(self.stages.as_slice())?;
        let doc = &self.doc;
        shown_cells(doc.alloc(), &written, doc.rows(), doc.cols(), last)
    }
}

// Those of the intervals that the operation adds, changes or deletes.
fn those_of(op: &ChannelOp, intervals: IntervalRecs) -> IntervalRecs
    ensures { result ≡ filter (is_changed_by (sub_operations op.now)) intervals }
{
    let mut items = intervals.into_items();
    items.retain(|i| is_changed_by(op, i));
    List::of(items)
}

// Those that the operation or one of these stages does.
fn those_around(op: &ChannelOp, stages: &[PlainStage], intervals: IntervalRecs) -> IntervalRecs
    ensures { result ≡ filter (λ i. is_changed_by (sub_operations op.now) i || is_changed_by (map (λ t. t.sub_operation) stages.now) i) intervals }
{
    let mut items = intervals.into_items();
    items.retain(|i| is_changed_by(op, i) || is_changed_by_any(stages, i));
    List::of(items)
}

// Whether one of the stages adds, changes or deletes the interval.
fn is_changed_by_any(stages: &[PlainStage], interval: &IntervalRec) -> bool
    ensures { result ≡ is_changed_by (map (λ t. t.sub_operation) stages.now) interval.now }
{
    for stage in stages {
        if is_stage_of(stage, interval) {
            return true;
        }
    }
    false
}

// Whether the stage adds, changes or deletes the interval.
fn is_stage_of(stage: &PlainStage, interval: &IntervalRec) -> bool
    ensures { result ≡ changes_interval interval.now stage.now.sub_operation }
{
    match stage.sub_operation() {
        SubOp::Intervals(op) => is_operation_on(op, interval),
        SubOp::Text(_) | SubOp::Grid(_) => false,
    }
}
