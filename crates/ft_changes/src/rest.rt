//! What is shown beside the elements: the changes of the lists move it along, and what else changes of it is told.

ghost use Rattle.std.specs.Prelude.{◌≡◌, ◌+◌, ◌++◌, ◌∷◌, [], IfOk, IsTrue, OnOk, Some, length, map, pos};
ghost use Rattle.ft_op.specs.Operation.{segment_contents};
ghost use Rattle.ft_changes.specs.Rest.{are_of_lists, is_of_list, moved_count, moved_end, moved_ends, moved_number, rest_of};
ghost use Rattle.ft_changes.specs.Shown.{ShownContent, after_change, after_changes, at_number, end_after_put, end_after_take, last_place, moved_cells, number_after_put, number_after_take, number_in};
ghost use Rattle.ft_changes.specs.Told.{told_rest};

use crate::changes::{ViewChange, ViewChanges};
use crate::items::tell_items;
use ft_base::{List, OutOfMemory, Text};
use ft_op::{Seg, Target};
use ft_sumdoc::{CellRec, CellRecs, Ends2, IntervalRec, IntervalRecs};

/// What is shown beside the elements of the text, and how many these are.
#[derive(Drop)]
pub struct ShownRest {
    /// How many elements of the text are shown.
    pub elements: u64,
    /// The intervals, by rising label and id.
    pub intervals: IntervalRecs,
    /// The cells that have a value, by rising row and column.
    pub cells: CellRecs,
}

/// Behind changes of the lists, adds what is left to tell, where so much was shown before them and after all.
///
/// Returns `OutOfMemory` where there is no room for it, or a place would pass its greatest number.
pub fn add_rest(
    changes: &mut ViewChanges,
    before: ShownRest,
    after: &ShownRest,
) -> Result<(), OutOfMemory>
    ensures { (s t : ShownContent) → rest_of s ≡ before → rest_of t ≡ after.now → IsTrue (are_of_lists changes.old)
        → OnOk result (changes.new ≡ changes.old ++ told_rest (after_changes s changes.old) t) }
{
    let before = before.moved_by(changes.as_slice())?;
    tell_items(before.cells.as_slice(), after.cells.as_slice(), changes)?;
    tell_items(
        before.intervals.as_slice(),
        after.intervals.as_slice(),
        changes,
    )
}

// ---- what changes of the lists make of it

impl ShownRest {
    // With the changes of lists, one after another.
    fn moved_by(self, changes: &[ViewChange]) -> Result<ShownRest, OutOfMemory>
        ensures { (s : ShownContent) → rest_of s ≡ self → IsTrue (are_of_lists changes.now) → IfOk result (λ rest. rest ≡ rest_of (after_changes s changes.now)) }
    {
        let mut rest = self;
        for change in changes {
            rest = rest.moved(change)?;
        }
        Ok(rest)
    }

    // With the change of a list; others leave it as it is.
    fn moved(self, change: &ViewChange) -> Result<ShownRest, OutOfMemory>
        ensures { (s : ShownContent) → rest_of s ≡ self → IsTrue (is_of_list change.now) → IfOk result (λ rest. rest ≡ rest_of (after_change s change.now)) }
    {
        match change {
            ViewChange::Put { pos, seg, .. } => self.with_elements(Shift::In {
                from: *pos,
                count: element_count(seg),
            }),
            ViewChange::Take { pos, count } => self.with_elements(Shift::Out {
                from: *pos,
                count: *count,
            }),
            ViewChange::PutUnits { target, pos, count } => self.with_units(
                *target,
                Shift::In {
                    from: *pos,
                    count: *count,
                },
            ),
            ViewChange::TakeUnits { target, pos, count } => self.with_units(
                *target,
                Shift::Out {
                    from: *pos,
                    count: *count,
                },
            ),
            ViewChange::Style { .. } => Ok(self),
            ViewChange::SetCell { .. } => Ok(self),
            ViewChange::ClearCell { .. } => Ok(self),
            ViewChange::SetInterval { .. } => Ok(self),
            ViewChange::DropInterval { .. } => Ok(self),
        }
    }

    // After elements went in or away.
    fn with_elements(self, shift: Shift) -> Result<ShownRest, OutOfMemory>
        ensures { IfOk result (λ rest. rest ≡ record self {
          elements = moved_count shift self.elements;
          intervals = map (moved_ends shift (moved_count shift self.elements)) self.intervals;
        }) }
    {
        let elements = shift.count(self.elements)?;
        let intervals = moved_intervals(self.intervals, shift, elements)?;
        Ok(ShownRest {
            elements,
            intervals,
            cells: self.cells,
        })
    }

    // After rows or columns went in or away.
    fn with_units(self, target: Target, shift: Shift) -> Result<ShownRest, OutOfMemory>
        ensures { IfOk result (λ rest. rest ≡ record self { cells = moved_cells target (moved_number shift) self.cells }) }
    {
        let cells = cells_after(self.cells, target, shift)?;
        Ok(ShownRest {
            elements: self.elements,
            intervals: self.intervals,
            cells,
        })
    }
}

// The intervals, where elements went in or away and so many are left.
fn moved_intervals(
    intervals: IntervalRecs,
    shift: Shift,
    left: u64,
) -> Result<IntervalRecs, OutOfMemory>
    ensures { IfOk result (λ moved. moved ≡ map (moved_ends shift left) intervals) }
{
    let mut items = intervals.into_items();
    move_all(items.as_mut_slice(), shift, left)?;
    Ok(List::of(items))
}

/// Moves the ends of all intervals, where elements went in or away and so many are left.
///
/// Returns `OutOfMemory` where a place would be more than 2^63 - 1.
pub fn move_all(intervals: &mut [IntervalRec], shift: Shift, left: u64) -> Result<(), OutOfMemory>
    ensures { OnOk result (intervals.new ≡ map (moved_ends shift left) intervals.old) }
{
    for interval in intervals.iter_mut() {
        move_ends(interval, shift, left)?;
    }
    Ok(())
}

// Moves the ends of an interval.
fn move_ends(interval: &mut IntervalRec, shift: Shift, left: u64) -> Result<(), OutOfMemory>
    ensures { OnOk result (interval.new ≡ moved_ends shift left interval.old) }
{
    let start = shift.end(left, interval.ends.start)?;
    let end = shift.end(left, interval.ends.end)?;
    interval.ends = Ends2 { start, end };
    Ok(())
}

/// The cells, where rows or columns went in or away.
///
/// Returns `OutOfMemory` where there is no room for them, or a number would be more than 2^64 - 1.
pub fn cells_after(cells: CellRecs, target: Target, shift: Shift) -> Result<CellRecs, OutOfMemory>
    ensures { IfOk result (λ moved. moved ≡ moved_cells target (moved_number shift) cells) }
{
    let mut moved = List::new(cells.allocator());
    for cell in cells.into_items() {
        let number = shift.number(number_in(&cell, target))?;
        push_at(&mut moved, target, number, cell)?;
    }
    Ok(moved)
}

// The number of the cell's row, or of its column.
fn number_in(cell: &CellRec, target: Target) -> u64
    ensures { result ≡ number_in target cell.now }
{
    match target {
        Target::Rows => cell.row,
        Target::Cols => cell.col,
    }
}

// Adds the cell behind the others with this number of its row or of its column, if there is one.
fn push_at(
    cells: &mut CellRecs,
    target: Target,
    number: Option<u64>,
    cell: CellRec,
) -> Result<(), OutOfMemory>
    ensures { OnOk result (cells.new ≡ cells.old ++ at_number target number cell) }
{
    match number {
        Some(number) => cells.push(with_number(target, number, cell)),
        None => Ok(()),
    }
}

// The cell with this number of its row, or of its column.
fn with_number(target: Target, number: u64, cell: CellRec) -> CellRec
    ensures { result ∷ [] ≡ at_number target (Some number) cell }
{
    let CellRec { row, col, value } = cell;
    match target {
        Target::Rows => CellRec {
            row: number,
            col,
            value,
        },
        Target::Cols => CellRec {
            row,
            col: number,
            value,
        },
    }
}

// ---- where a place is, after what went in or away before it

/// So many elements, rows or columns that went in, or away, from a place on.
#[derive(Clone, Copy)]
pub enum Shift {
    In { from: u64, count: u64 },
    Out { from: u64, count: u64 },
}

impl Shift {
    // How many there are, of so many before.
    //
    // Returns `OutOfMemory` where they are more than 2^64 - 1.
    fn count(self, before: u64) -> Result<u64, OutOfMemory>
        ensures { IfOk result (λ n. n ≡ moved_count self before) }
    {
        match self {
            Shift::In { count, .. } => sum(before, count),
            Shift::Out { from, count } => Ok(before - count.min(before.saturating_sub(from))),
        }
    }

    // Where an end is, if so many elements are left.
    //
    // Returns `OutOfMemory` where its place would be more than 2^63 - 1.
    fn end(self, left: u64, end: i64) -> Result<i64, OutOfMemory>
        ensures { IfOk result (λ moved. moved ≡ moved_end self left end) }
    {
        if end < 0 {
            return Ok(end);
        }
        match self {
            Shift::In { from, count } => end_after_put(from, count, end as u64),
            Shift::Out { from, count } => end_after_take(from, count, left, end as u64),
        }
    }

    // The number of a row or a column, if it is left.
    //
    // Returns `OutOfMemory` where it would be more than 2^64 - 1.
    fn number(self, number: u64) -> Result<Option<u64>, OutOfMemory>
        ensures { IfOk result (λ moved. moved ≡ moved_number self number) }
    {
        match self {
            Shift::In { from, count } => number_after_put(from, count, number),
            Shift::Out { from, count } => Ok(number_after_take(from, count, number)),
        }
    }
}

// The number after so many went in.
fn number_after_put(from: u64, count: u64, number: u64) -> Result<Option<u64>, OutOfMemory>
    ensures { IfOk result (λ moved. moved ≡ number_after_put from count number) }
{
    if from <= number {
        Ok(Some(sum(number, count)?))
    } else {
        Ok(Some(number))
    }
}

// The number after so many went away, if it isn't one of them.
fn number_after_take(from: u64, count: u64, number: u64) -> Option<u64>
    ensures { result ≡ number_after_take from count number }
{
    if number < from {
        Some(number)
    } else if number - from >= count {
        Some(number - count)
    } else {
        None
    }
}

// The end at a place, after so many elements went in.
fn end_after_put(from: u64, count: u64, place: u64) -> Result<i64, OutOfMemory>
    ensures { IfOk result (λ end. end ≡ end_after_put from count (pos place)) }
{
    if from <= place {
        end_at(sum(place, count)?)
    } else {
        end_at(place)
    }
}

// The end at a place, after so many elements went away, if so many are left.
fn end_after_take(from: u64, count: u64, left: u64, place: u64) -> Result<i64, OutOfMemory>
    ensures { IfOk result (λ end. end ≡ end_after_take from count left (pos place)) }
{
    if place < from {
        end_at(place)
    } else if place - from >= count {
        end_at(place - count)
    } else if from < left {
        end_at(from)
    } else {
        last_end(left)
    }
}

// The end on the last of so many elements, if there is one.
fn last_end(count: u64) -> Result<i64, OutOfMemory>
    ensures { IfOk result (λ end. end ≡ last_place count) }
{
    match count.checked_sub(1) {
        Some(place) => end_at(place),
        None => Ok(-1),
    }
}

// The end at a place.
//
// Returns `OutOfMemory` where it is more than 2^63 - 1.
fn end_at(place: u64) -> Result<i64, OutOfMemory>
    ensures { IfOk result (λ end. end ≡ pos place) }
{
    match i64::try_from(place) {
        Ok(end) => Ok(end),
        Err(_) => Err(OutOfMemory),
    }
}

// Both numbers together.
//
// Returns `OutOfMemory` where they are more than 2^64 - 1.
fn sum(a: u64, b: u64) -> Result<u64, OutOfMemory>
    ensures { IfOk result (λ n. n ≡ a + b) }
{
    a.checked_add(b).ok_or(OutOfMemory)
}

/// How many elements a segment puts in: it goes over its characters.
pub fn element_count(seg: &Seg) -> u64
    ensures { result ≡ length (segment_contents seg.now) }
{
    match seg {
        Seg::Chars { text } => char_count(text),
        Seg::Marker { .. } => 1,
    }
}

// How many characters a text has.
fn char_count(text: &Text) -> u64
    ensures { result ≡ length text.now }
{
    text.as_str().chars().count() as u64
}
