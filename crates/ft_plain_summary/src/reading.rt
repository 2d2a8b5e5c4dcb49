//! The document that a summary gives.

ghost use Rattle.std.specs.Prelude.{◌≡◌, IfOk, IsTrue, map, nat_le};
ghost use Rattle.ft_op.specs.WellFormed.{is_count};
ghost use Rattle.ft_msg.specs.Summary.{cells_of, doc_of, interval_of, list_of, run_items, segment_items};

use crate::lists::{text_list, unit_list};
use crate::named::{cells_of, intervals_of};
use ft_base::OutOfMemory;
use ft_base::moved::{beside, both};
use ft_plain_document::{DocumentNumbers, GridParts, PlainDocument, TextParts};
use ft_sumdoc::SumDoc;
use std::alloc::Global;

/// The document that a summary gives.
///
/// Returns `OutOfMemory` where there is no room for it or a list would have more than 2^53 - 1 elements.
pub fn document_of(alloc: Global, sum: &SumDoc) -> Result<PlainDocument, OutOfMemory>
    requires seq { IsTrue (is_count sum.now.seq) }
    requires min { IsTrue (nat_le sum.now.min sum.now.seq) }
    ensures { IfOk result (λ doc. doc ≡ doc_of sum.now) }
{
    let (text, grid) = both(text_parts(alloc, sum), grid_parts(alloc, sum))?;
    let numbers = DocumentNumbers {
        skipped: sum.skipped,
        other: sum.other,
        number: sum.seq,
        minimum: sum.min,
    };
    Ok(PlainDocument::of(text, grid, numbers))
}

// The text that a summary gives, with its intervals.
//
// Returns `OutOfMemory` where there is no room for it or it would have more than 2^53 - 1 elements.
fn text_parts(alloc: Global, sum: &SumDoc) -> Result<TextParts, OutOfMemory>
    ensures items { IfOk result (λ text. text.items ≡ list_of (segment_items 0 sum.now.text)) }
    ensures intervals { IfOk result (λ text. text.intervals ≡ map (interval_of (segment_items 0 sum.now.text)) sum.now.intervals) }
{
    let list = text_list(alloc, sum.text.as_slice())?;
    let made = intervals_of(alloc, list.as_slice(), sum.intervals.as_slice());
    let (intervals, items) = beside(made, list)?;
    Ok(TextParts { items, intervals })
}

// The rows and the columns that a summary gives, with their cells.
//
// Returns `OutOfMemory` where there is no room for them or they would be more than 2^53 - 1.
fn grid_parts(alloc: Global, sum: &SumDoc) -> Result<GridParts, OutOfMemory>
    ensures rows { IfOk result (λ grid. grid.rows ≡ list_of (run_items 0 sum.now.rows)) }
    ensures cols { IfOk result (λ grid. grid.cols ≡ list_of (run_items 0 sum.now.cols)) }
    ensures cells { IfOk result (λ grid. grid.cells ≡ cells_of (run_items 0 sum.now.rows) (run_items 0 sum.now.cols) sum.now.cells) }
{
    let rows = unit_list(alloc, sum.rows.as_slice());
    let units = both(rows, unit_list(alloc, sum.cols.as_slice()))?;
    let made = cells_of(
        alloc,
        units.0.as_slice(),
        units.1.as_slice(),
        sum.cells.as_slice(),
    );
    let (cells, (rows, cols)) = beside(made, units)?;
    Ok(GridParts { rows, cols, cells })
}
