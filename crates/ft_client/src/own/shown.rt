//! What a document of trees shows, and its summary.

ghost use Rattle.std.specs.Prelude.{◌≡◌, ◌<◌, ◌≤◌, ◌^◌, [], ℕ, IfOk, IsTrue, OnOk, cond, length};
ghost use Rattle.ft_msg.specs.Answers.{view_content};
ghost use Rattle.ft_msg.specs.Client.{NaiveClient, stages_of};
ghost use Rattle.ft_msg.specs.Content.{content};
ghost use Rattle.ft_msg.specs.SummaryOf.{summary_of};
ghost use Rattle.ft_changes.specs.Rest.{rest_of};
ghost use Rattle.ft_changes.specs.Shown.{shown_content};
ghost use Rattle.ft_laws_names.specs.WellNamed.{IsWellNamed};
ghost use Rattle.ft_replica.specs.Comparing.{compared_intervals, compared_part};
ghost use Rattle.ft_replica.specs.Own.{HeldDocument, HoldsOne, NamesFit, held_by};
ghost use Rattle.ft_laws_summaries.specs.Summaries.{IsSmall};
ghost use Rattle.ft_sumdoc.specs.Runs.{unit_count};
ghost use Rattle.ft_sumdoc.specs.Segments.{body_length, text_length};
ghost use Rattle.ft_client.specs.Holds.{HoldsTree};
ghost use Rattle.ft_client.specs.Numbers.{IsShortSummary, bare_summary};

use crate::own::TreeOwn;
use ft_base::{OutOfMemory, Text};
use ft_changes::ShownRest;
use ft_json::GREATEST_COUNT;
use ft_msg::{Numbers, Runs, Spots, View};
use ft_op::ChannelOp;
use ft_replica::{Compared, ComparedIntervals};
use ft_sumdoc::{
    CellRecs, IntervalRecs, MOST_UNITS, RunRec, RunRecs, Seg, SegRec, SegRecs, SumDoc, Texts,
};
use std::alloc::Global;

impl TreeOwn {
    /// All that is shown at the last stage, with these numbers.
    pub(crate) fn view_at(&self, last: u64, numbers: Numbers) -> Result<View, OutOfMemory>
        requires { HoldsOne HoldsTree self.now (λ p. p.last_stage ≡ last) }
        ensures numbers { IfOk result (λ v. v.numbers ≡ numbers) }
        ensures content { (low : ℕ) (p : NaiveClient) → IsWellNamed p → p.last_stage ≡ last → HoldsTree self.now (held_by low p)
            → IfOk result (λ v. view_content v ≡ content p) }
    {
        let mut view = empty_view(self.text.allocator(), numbers);
        self.text.view(&mut view)?;
        self.table.view(&mut view)?;
        Ok(view)
    }

    /// What is compared of what is shown at the last stage beside the elements, and how many these are, with a step of this
    /// operation.
    pub(crate) fn rest_at(
        &self,
        last: u64,
        compared: Compared,
        op: &ChannelOp,
    ) -> Result<ShownRest, OutOfMemory>
        requires { HoldsOne HoldsTree self.now (λ p. p.last_stage ≡ last) }
        ensures { (low : ℕ) (p : NaiveClient) → IsWellNamed p → p.last_stage ≡ last → HoldsTree self.now (held_by low p)
            → IfOk result (λ rest. rest ≡ rest_of (compared_part compared op.now (stages_of p) (shown_content p))) }
    {
        let elements = self.text.shown_count();
        let intervals = self.compared_intervals(last, compared.intervals, op)?;
        let cells = self.compared_cells(last, compared.cells)?;
        Ok(ShownRest {
            elements,
            intervals,
            cells,
        })
    }

    // The shown intervals that are compared with a step of this operation.
    fn compared_intervals(
        &self,
        last: u64,
        compared: ComparedIntervals,
        op: &ChannelOp,
    ) -> Result<IntervalRecs, OutOfMemory>
        requires { HoldsOne HoldsTree self.now (λ p. p.last_stage ≡ last) }
        ensures { (low : ℕ) (p : NaiveClient) → IsWellNamed p → p.last_stage ≡ last → HoldsTree self.now (held_by low p)
            → IfOk result (λ intervals. intervals ≡ compared_intervals compared op.now (stages_of p) (shown_content p).intervals) }
    {
        match compared {
            ComparedIntervals::All => self.text.shown_intervals(),
            ComparedIntervals::OfOperation => self.text.shown_of(op),
            ComparedIntervals::OfOperationAndStages => self.text.shown_around(op),
        }
    }

    // The shown cells, if they are asked for, else none.
    fn compared_cells(&self, last: u64, asked: bool) -> Result<CellRecs, OutOfMemory>
        requires { HoldsOne HoldsTree self.now (λ p. p.last_stage ≡ last) }
        ensures { (low : ℕ) (p : NaiveClient) → IsWellNamed p → p.last_stage ≡ last → HoldsTree self.now (held_by low p)
            → IfOk result (λ cells. cells ≡ cond asked (shown_content p).cells []) }
    {
        if asked {
            self.table.shown_cells()
        } else {
            Ok(CellRecs::new(self.text.allocator()))
        }
    }

    /// The summary of the document, which has nothing pending, with these names of connections.
    ///
    /// Returns `OutOfMemory` where there is no room for it, or it is too long for a summary.
    pub(crate) fn summary_with(&self, conns: Texts) -> Result<SumDoc, OutOfMemory>
        requires { HoldsOne HoldsTree self.now (λ p. p.pending ≡ []) }
        ensures sum { (held : HeldDocument) → NamesFit held → held.stages ≡ [] → HoldsTree self.now held → IfOk result (λ sum. sum ≡ summary_of conns held.doc) }
        ensures small { (held : HeldDocument) → NamesFit held → HoldsTree self.now held → OnOk result (IsSmall held.doc) }
    {
        let mut sum = self.bare_summary(conns);
        self.text.save(&mut sum)?;
        self.table.save(&mut sum)?;
        if !is_short(&sum) {
            return Err(OutOfMemory);
        }
        Ok(sum)
    }

    // A summary with the numbers of the document and these names of connections, and with nothing else.
    fn bare_summary(&self, conns: Texts) -> SumDoc
        ensures { result ≡ bare_summary self.now.numbers conns }
    {
        let alloc = self.text.allocator();
        SumDoc {
            seq: self.numbers.number(),
            min: self.numbers.minimum(),
            skipped: self.numbers.skipped(),
            other: self.numbers.other(),
            conns,
            text: SegRecs::new(alloc),
            rows: RunRecs::new(alloc),
            cols: RunRecs::new(alloc),
            intervals: IntervalRecs::new(alloc),
            cells: CellRecs::new(alloc),
        }
    }
}

// Whether a summary may tell its numbers, and have as many elements and units.
fn is_short(sum: &SumDoc) -> bool
    ensures { IsTrue result → IsShortSummary sum.now }
{
    sum.seq <= GREATEST_COUNT
        && sum.skipped <= GREATEST_COUNT
        && sum.other <= GREATEST_COUNT
        && are_few_elements(sum.text.as_slice())
        && are_few_units(sum.rows.as_slice())
        && are_few_units(sum.cols.as_slice())
}

// Whether a summary may have so many elements.
fn are_few_elements(segs: &[SegRec]) -> bool
    ensures { IsTrue result → text_length segs.now < 2 ^ 53 }
{
    match text_length(segs) {
        Ok(count) => count <= GREATEST_COUNT,
        Err(_) => false,
    }
}

// How many elements there are.
//
// Returns `OutOfMemory` where they are more than 2^64 - 1.
fn text_length(segs: &[SegRec]) -> Result<u64, OutOfMemory>
    ensures { IfOk result (λ n. n ≡ text_length segs.now) }
{
    let mut count: u64 = 0;
    for seg in segs {
        count = count
            .checked_add(body_length(&seg.body))
            .ok_or(OutOfMemory)?;
    }
    Ok(count)
}

// How many elements a segment has.
fn body_length(body: &Seg) -> u64
    ensures { result ≡ body_length body.now }
{
    match body {
        Seg::Chars { text } => char_count(text),
        Seg::Marker { .. } => 1,
    }
}

// How many characters a text has.
fn char_count(text: &Text) -> u64
    ensures { result ≡ length text.now }
{
    text.as_str().chars().count() as u64
}

// Whether a summary may have so many units.
fn are_few_units(runs: &[RunRec]) -> bool
    ensures { IsTrue result → unit_count runs.now ≤ 2 ^ 52 }
{
    match unit_count(runs) {
        Ok(count) => count <= MOST_UNITS,
        Err(_) => false,
    }
}

// How many units there are.
//
// Returns `OutOfMemory` where they are more than 2^64 - 1.
fn unit_count(runs: &[RunRec]) -> Result<u64, OutOfMemory>
    ensures { IfOk result (λ n. n ≡ unit_count runs.now) }
{
    let mut count: u64 = 0;
    for run in runs {
        count = count.checked_add(run.count).ok_or(OutOfMemory)?;
    }
    Ok(count)
}

// A view of nothing, with these numbers.
fn empty_view(alloc: Global, numbers: Numbers) -> View
    ensures { result.numbers ≡ numbers }
{
    View {
        numbers,
        text: Text::from_string(String::new(alloc)),
        markers: Spots::new(alloc),
        runs: Runs::new(alloc),
        intervals: IntervalRecs::new(alloc),
        rows: 0,
        cols: 0,
        cells: CellRecs::new(alloc),
    }
}
