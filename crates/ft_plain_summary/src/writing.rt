//! The summary of a document over plain lists.

ghost use Rattle.std.specs.Prelude.{◌≡◌, IfOk, OnOk};
ghost use Rattle.ft_msg.specs.Summary.{trim};
ghost use Rattle.ft_msg.specs.SummaryOf.{summary_of};
ghost use Rattle.ft_plain_summary.specs.FilledLists.{with_lists};

use crate::segments::text_segments;
use crate::units::unit_runs;
use ft_base::OutOfMemory;
use ft_base::moved::{after, fill};
use ft_plain_document::PlainDocument;
use ft_plain_lists::{shown_cells, shown_intervals};
use ft_sumdoc::{CellRecs, IntervalRecs, RunRecs, SegRecs, SumDoc, Texts};

/// The summary of the document, with the names of the connections that it knows.
pub fn summary_of(doc: &PlainDocument, conns: Texts) -> Result<SumDoc, OutOfMemory>
    ensures { IfOk result (λ sum. sum ≡ summary_of conns doc.now) }
{
    let alloc = doc.alloc();
    let numbers = doc.numbers();
    let mut sum = SumDoc {
        seq: numbers.number,
        min: numbers.minimum,
        skipped: numbers.skipped,
        other: numbers.other,
        conns,
        text: SegRecs::new(alloc),
        rows: RunRecs::new(alloc),
        cols: RunRecs::new(alloc),
        intervals: IntervalRecs::new(alloc),
        cells: CellRecs::new(alloc),
    };
    let filled = fill_trimmed(&mut sum, doc);
    after(filled, sum)
}

// Fills in what a summary keeps of the document's lists.
//
// Returns `OutOfMemory` where there is no room for it, and then a part may be filled in.
fn fill_trimmed(sum: &mut SumDoc, doc: &PlainDocument) -> Result<(), OutOfMemory>
    ensures { OnOk result (sum.new ≡ with_lists (trim doc.now) sum.old) }
{
    let kept = doc.trimmed()?;
    fill_lists(sum, &kept)
}

// Fills in the document's lists.
//
// Returns `OutOfMemory` where there is no room for them, and then a part may be filled in.
fn fill_lists(sum: &mut SumDoc, kept: &PlainDocument) -> Result<(), OutOfMemory>
    ensures { OnOk result (sum.new ≡ with_lists kept.now sum.old) }
{
    let alloc = kept.alloc();
    fill(&mut sum.text, text_segments(alloc, kept.text()))?;
    fill(&mut sum.rows, unit_runs(alloc, kept.rows()))?;
    fill(&mut sum.cols, unit_runs(alloc, kept.cols()))?;
    let intervals = shown_intervals(alloc, kept.text(), kept.intervals(), 0);
    fill(&mut sum.intervals, intervals)?;
    let cells = shown_cells(alloc, kept.cells(), kept.rows(), kept.cols(), 0);
    fill(&mut sum.cells, cells)
}
