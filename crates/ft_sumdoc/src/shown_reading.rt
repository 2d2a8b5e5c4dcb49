//! Reading the intervals and the cells of a summary.

ghost use Rattle.std.specs.Prelude.{◌≡◌, chars, map, option_map};
ghost use Rattle.std.specs.List.{AllByRecursion};
ghost use Rattle.serde_json.specs.View.{view};
ghost use Rattle.ft_json.specs.Readers.{Reads};
ghost use Rattle.ft_sumdoc.specs.Cells.{cell_form, cell_of_three, is_given_cell_before, is_place_before};
ghost use Rattle.ft_sumdoc.specs.Forms.{place_number, rises};
ghost use Rattle.ft_sumdoc.specs.Intervals.{are_shown_ends, interval_behind, interval_form, interval_of_five, is_given_interval_before, is_name_before};
ghost use Rattle.ft_sumdoc.specs.Items.{cell_of, interval_of};
ghost use Rattle.ft_sumdoc.specs.Shown.{cells_of, intervals_of};
ghost use Rattle.ft_sumdoc.specs.Valid.{HasValues, IsValue};

use crate::item_reading::{KeptItem, ListedItem, keep_each, read_array_field};
use crate::items::{CellItem, IntervalItem};
use crate::segment_reading::{keep_props, props_item};
use crate::summary::{CellRec, CellRecs, Ends2, IntervalRec, IntervalRecs, SumFault};
use ft_base::{OutOfMemory, Text};
use ft_json::{Field, GREATEST_NUMBER, JsonFault, canonical, count, items, whole_within};
use ft_props::keys::compare;
use serde_json::Value;
use std::alloc::Global;

// ---- intervals

// The whole number from -1 to 9007199254740991 that the value is.
fn place_number(value: &Value) -> Option<i64>
    ensures { result ≡ place_number (view value.now) }
{
    whole_within(value, -1, GREATEST_NUMBER)
}

/// Whether the ends are both -1, or in order on so many elements.
pub(crate) fn are_shown_ends(elements: u64, ends: Ends2) -> bool
    ensures { result ≡ are_shown_ends elements ends }
{
    (ends.start == -1 && ends.end == -1)
        || (0 <= ends.start && ends.start <= ends.end && (ends.end as u64) < elements)
}

/// Whether the first label and id stand before the second.
#[tactic(auto, using(crate::proofs::ReadOptions::equal_texts))]
pub(crate) fn is_name_before(label: &str, id: &str, other_label: &str, other_id: &str) -> bool
    ensures { result ≡ is_name_before (chars label.now) (chars id.now) (chars other_label.now) (chars other_id.now) }
{
    let labels = compare(label, other_label);
    labels.is_lt() || (labels.is_eq() && compare(id, other_id).is_lt())
}

// The interval of five values, on so many elements.
fn interval_of_five(elements: u64, values: &[Value]) -> Option<IntervalItem<'_>>
    ensures { option_map interval_of result ≡ interval_of_five elements (map view values.now) }
{
    let [label, id, start, end, props] = values else {
        return None;
    };
    interval_behind(elements, label.as_str()?, id.as_str()?, start, end, props)
}

// The interval of this label, this id and three values, on so many elements.
fn interval_behind<'a>(
    elements: u64,
    label: &'a str,
    id: &'a str,
    start: &Value,
    end: &Value,
    props: &'a Value,
) -> Option<IntervalItem<'a>>
    ensures { option_map interval_of result
        ≡ interval_behind elements (chars label.now) (chars id.now) (view start.now) (view end.now) (view props.now) }
{
    let start = place_number(start)?;
    let end = place_number(end)?;
    let props = props_item(props)?;
    let ends = Ends2 { start, end };
    if !are_shown_ends(elements, ends) {
        return None;
    }
    Some(IntervalItem {
        label,
        id,
        ends,
        props,
    })
}

impl<'a> ListedItem<'a> for IntervalItem<'a> {
    ghost use Rattle.ft_sumdoc.specs.Forms.{rises};
    ghost use Rattle.ft_sumdoc.specs.Intervals.{GivenInterval, interval_form, is_given_interval_before};
    ghost use Rattle.ft_sumdoc.specs.Items.{interval_of};

    // How many elements the text has.
    type Limits = u64;

    ghost Meant = { GivenInterval };

    ghost meaning = { interval_of };

    ghost form = { interval_form };

    ghost together = { rises is_given_interval_before };

    fn read_item(
        _alloc: Global,
        limits: u64,
        value: &'a Value,
    ) -> Result<Option<IntervalItem<'a>>, OutOfMemory> {
        Ok(interval_item(limits, value))
    }

    fn may_stand(items: &[IntervalItem<'a>]) -> bool {
        intervals_rise(items)
    }
}

// The interval that the value is, on so many elements.
fn interval_item(elements: u64, value: &Value) -> Option<IntervalItem<'_>>
    ensures { option_map interval_of result ≡ interval_form elements (view value.now) }
{
    interval_of_five(elements, items(value)?)
}

// Whether the intervals rise by label and id.
fn intervals_rise(intervals: &[IntervalItem]) -> bool
    ensures { result ≡ rises is_given_interval_before (map interval_of intervals.now) }
{
    for i in 1..intervals.len() {
        let first = &intervals[i - 1];
        let next = &intervals[i];
        if !is_name_before(first.label, first.id, next.label, next.id) {
            return false;
        }
    }
    true
}

impl<'a> KeptItem for IntervalItem<'a> {
    ghost use Rattle.std.specs.Prelude.{◌≡◌, true};
    ghost use Rattle.ft_sumdoc.specs.Forms.{has_no_null};
    ghost use Rattle.ft_sumdoc.specs.Intervals.{GivenInterval};
    ghost use Rattle.ft_sumdoc.specs.Items.{interval_of};
    ghost use Rattle.ft_sumdoc.specs.Valid.{HasValues};
    ghost use Rattle.ft_sumdoc.specs.Values.{kept_interval};

    type Record = IntervalRec;

    ghost Meant = { GivenInterval };

    ghost meaning = { interval_of };

    ghost kept = { kept_interval };

    ghost IsGiven = { λ i. has_no_null i.props ≡ true };

    ghost IsFormed = { λ i. HasValues i.props };

    fn keep(&self, alloc: Global) -> Result<IntervalRec, JsonFault> {
        let props = keep_props(alloc, self.props)?;
        Ok(IntervalRec {
            label: Text::new(alloc, self.label)?,
            id: Text::new(alloc, self.id)?,
            ends: self.ends,
            props,
        })
    }
}

/// The intervals of a summary with so many elements that aren't removed.
#[tactic(auto, unfolding(crate::specs::Shown::intervals_of))]
pub(crate) fn read_intervals(
    alloc: Global,
    elements: u64,
    value: &Value,
) -> Result<IntervalRecs, SumFault>
    ensures { Reads SumFault.OutOfMemory (intervals_of elements (view value.now)) (AllByRecursion (λ i. HasValues i.props)) result }
{
    let items: Vec<IntervalItem> = read_array_field(alloc, elements, value, Field::Intervals)?;
    Ok(keep_each(alloc, &items)?)
}

// ---- cells

/// Whether the first row and column stand before the second.
pub(crate) fn is_place_before(row: u64, col: u64, other_row: u64, other_col: u64) -> bool
    ensures { result ≡ is_place_before row col other_row other_col }
{
    row < other_row || (row == other_row && col < other_col)
}

// The cell of three values, of so many rows and columns.
fn cell_of_three(rows: u64, cols: u64, values: &[Value]) -> Option<CellItem<'_>>
    ensures { option_map cell_of result ≡ cell_of_three rows cols (map view values.now) }
{
    let [row, col, value] = values else {
        return None;
    };
    let row = count(row)?;
    let col = count(col)?;
    if row < rows && col < cols && !value.is_null() {
        Some(CellItem { row, col, value })
    } else {
        None
    }
}

impl<'a> ListedItem<'a> for CellItem<'a> {
    ghost use Rattle.ft_sumdoc.specs.Cells.{GivenCell, cell_form, is_given_cell_before};
    ghost use Rattle.ft_sumdoc.specs.Forms.{rises};
    ghost use Rattle.ft_sumdoc.specs.Items.{cell_of};

    // How many rows and columns there are.
    type Limits = (u64, u64);

    ghost Meant = { GivenCell };

    ghost meaning = { cell_of };

    ghost form = { λ size. cell_form size.0 size.1 };

    ghost together = { rises is_given_cell_before };

    fn read_item(
        _alloc: Global,
        limits: (u64, u64),
        value: &'a Value,
    ) -> Result<Option<CellItem<'a>>, OutOfMemory> {
        Ok(cell_item(limits.0, limits.1, value))
    }

    fn may_stand(items: &[CellItem<'a>]) -> bool {
        cells_rise(items)
    }
}

// The cell that the value is, of so many rows and columns.
fn cell_item(rows: u64, cols: u64, value: &Value) -> Option<CellItem<'_>>
    ensures { option_map cell_of result ≡ cell_form rows cols (view value.now) }
{
    cell_of_three(rows, cols, items(value)?)
}

// Whether the cells rise by row and column.
fn cells_rise(cells: &[CellItem]) -> bool
    ensures { result ≡ rises is_given_cell_before (map cell_of cells.now) }
{
    for i in 1..cells.len() {
        let first = &cells[i - 1];
        let next = &cells[i];
        if !is_place_before(first.row, first.col, next.row, next.col) {
            return false;
        }
    }
    true
}

impl<'a> KeptItem for CellItem<'a> {
    ghost use Rattle.std.specs.Prelude.{◌≡◌, false, is_some};
    ghost use Rattle.serde_json.specs.Find.{as_null};
    ghost use Rattle.ft_sumdoc.specs.Cells.{GivenCell};
    ghost use Rattle.ft_sumdoc.specs.Items.{cell_of};
    ghost use Rattle.ft_sumdoc.specs.Valid.{IsValue};
    ghost use Rattle.ft_sumdoc.specs.Values.{kept_cell};

    type Record = CellRec;

    ghost Meant = { GivenCell };

    ghost meaning = { cell_of };

    ghost kept = { kept_cell };

    ghost IsGiven = { λ c. is_some (as_null c.value) ≡ false };

    ghost IsFormed = { λ c. IsValue c.value };

    fn keep(&self, alloc: Global) -> Result<CellRec, JsonFault> {
        Ok(CellRec {
            row: self.row,
            col: self.col,
            value: canonical(alloc, self.value)?,
        })
    }
}

/// The cells of a summary with so many rows and columns that aren't removed.
#[tactic(auto, unfolding(crate::specs::Shown::cells_of))]
pub(crate) fn read_cells(
    alloc: Global,
    rows: u64,
    cols: u64,
    value: &Value,
) -> Result<CellRecs, SumFault>
    ensures { Reads SumFault.OutOfMemory (cells_of rows cols (view value.now)) (AllByRecursion (λ c. IsValue c.value)) result }
{
    let items: Vec<CellItem> = read_array_field(alloc, (rows, cols), value, Field::Cells)?;
    Ok(keep_each(alloc, &items)?)
}
