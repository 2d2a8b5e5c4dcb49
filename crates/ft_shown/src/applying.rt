//! What changes make of what an editor shows.

ghost use Rattle.std.specs.Prelude.{◌≡◌, ◌+◌, ◌-◌, OnOk, length, map};
ghost use Rattle.ft_changes.specs.declared.changes.ViewChange.TheVariants.{ClearCell, DropInterval, Put, PutUnits, Style, Take, TakeUnits};
ghost use Rattle.ft_changes.specs.Rest.{moved_ends, moved_number};
ghost use Rattle.ft_changes.specs.Shown.{after_change, after_changes, moved_cells, with_moved_units};

use crate::cuts::{put_in, take_out};
use crate::elements::{restyle, styled_elements};
use crate::rising::{put_rising, remove_rising};
use crate::shown::Shown;
use ft_base::{List, OutOfMemory, Text};
use ft_changes::rest::{Shift, cells_after, element_count, move_all};
use ft_changes::{ViewChange, ViewChanges};
use ft_json::ValText;
use ft_op::{Seg, Target};
use ft_props::Props;
use ft_sumdoc::{CellRec, Ends2, IntervalRec};
use std::mem::replace;

impl Shown {
    /// Applies changes, one after another.
    ///
    /// Returns `OutOfMemory` where there is no room for what they make, or a place or a count would pass its greatest number;
    /// then nothing is known of what is shown.
    pub fn apply_all(&mut self, changes: ViewChanges) -> Result<(), OutOfMemory>
        ensures { OnOk result (self.new ≡ after_changes self.old changes) }
    {
        for change in changes.into_items() {
            self.apply(change)?;
        }
        Ok(())
    }

    /// Applies a change.
    ///
    /// Returns `OutOfMemory` where there is no room for what it makes, or a place or a count would pass its greatest number;
    /// then nothing is known of what is shown.
    pub fn apply(&mut self, change: ViewChange) -> Result<(), OutOfMemory>
        ensures { OnOk result (self.new ≡ after_change self.old change) }
    {
        match change {
            ViewChange::Put { pos, seg, props } => self.put(pos, &seg, &props),
            ViewChange::Take { pos, count } => self.take(pos, count),
            ViewChange::Style { pos, count, props } => self.style(pos, count, &props),
            ViewChange::PutUnits { target, pos, count } => self.put_units(target, pos, count),
            ViewChange::TakeUnits { target, pos, count } => self.take_units(target, pos, count),
            ViewChange::SetCell { row, col, value } => {
                put_rising(&mut self.cells, CellRec { row, col, value })
            }
            ViewChange::ClearCell { row, col } => self.clear_cell(row, col),
            ViewChange::SetInterval { interval } => put_rising(&mut self.intervals, interval),
            ViewChange::DropInterval { label, id } => {
                self.drop_interval(label, id);
                Ok(())
            }
        }
    }

    // Puts the elements of the segment in front of the one at `pos`, or at the end.
    fn put(&mut self, pos: u64, seg: &Seg, props: &Props) -> Result<(), OutOfMemory>
        ensures { OnOk result (self.new ≡ after_change self.old (Put pos seg.now props.now)) }
    {
        let new = styled_elements(self.alloc, seg, props)?;
        put_in(&mut self.elements, pos, new)?;
        self.move_ends(Shift::In {
            from: pos,
            count: element_count(seg),
        })
    }

    // Takes `count` elements from `pos` on out.
    fn take(&mut self, pos: u64, count: u64) -> Result<(), OutOfMemory>
        ensures { OnOk result (self.new ≡ after_change self.old (Take pos count)) }
    {
        take_out(&mut self.elements, pos, count);
        self.move_ends(Shift::Out { from: pos, count })
    }

    // Gives `count` elements from `pos` on these properties, and no others.
    fn style(&mut self, pos: u64, count: u64, props: &Props) -> Result<(), OutOfMemory>
        ensures { OnOk result (self.new ≡ after_change self.old (Style pos count props.now)) }
    {
        restyle(self.elements.as_mut_slice(), pos, count, props)
    }

    // Moves the ends of the intervals, behind a change of the elements.
    fn move_ends(&mut self, shift: Shift) -> Result<(), OutOfMemory>
        ensures { OnOk result (self.new ≡ record self.old { intervals = map (moved_ends shift (length self.old.elements)) self.old.intervals }) }
    {
        let left = self.elements.len() as u64;
        move_all(self.intervals.as_mut_slice(), shift, left)
    }

    // Puts `count` rows or columns in front of number `pos`, or at the end.
    fn put_units(&mut self, target: Target, pos: u64, count: u64) -> Result<(), OutOfMemory>
        ensures { OnOk result (self.new ≡ after_change self.old (PutUnits target pos count)) }
    {
        self.add_units(target, count)?;
        self.move_cells(target, Shift::In { from: pos, count })
    }

    // Takes `count` rows or columns from number `pos` on out, with their cells.
    fn take_units(&mut self, target: Target, pos: u64, count: u64) -> Result<(), OutOfMemory>
        ensures { OnOk result (self.new ≡ after_change self.old (TakeUnits target pos count)) }
    {
        self.drop_units(target, count);
        self.move_cells(target, Shift::Out { from: pos, count })
    }

    // Counts so many rows or columns more.
    fn add_units(&mut self, target: Target, count: u64) -> Result<(), OutOfMemory>
        ensures { OnOk result (self.new ≡ with_moved_units target (λ k. k + count) self.old.cells self.old) }
    {
        match target {
            Target::Rows => self.rows = self.rows.checked_add(count).ok_or(OutOfMemory)?,
            Target::Cols => self.cols = self.cols.checked_add(count).ok_or(OutOfMemory)?,
        }
        Ok(())
    }

    // Counts so many rows or columns fewer.
    fn drop_units(&mut self, target: Target, count: u64)
        ensures { self.new ≡ with_moved_units target (λ k. k - count) self.old.cells self.old }
    {
        match target {
            Target::Rows => self.rows = self.rows.saturating_sub(count),
            Target::Cols => self.cols = self.cols.saturating_sub(count),
        }
    }

    // Moves the cells, with a change of the rows or the columns.
    fn move_cells(&mut self, target: Target, shift: Shift) -> Result<(), OutOfMemory>
        ensures { OnOk result (self.new ≡ record self.old { cells = moved_cells target (moved_number shift) self.old.cells }) }
    {
        let cells = replace(&mut self.cells, Vec::new(self.alloc));
        self.cells = cells_after(List::of(cells), target, shift)?.into_items();
        Ok(())
    }

    // Takes the value of the cell away.
    fn clear_cell(&mut self, row: u64, col: u64) -> Result<(), OutOfMemory>
        ensures { OnOk result (self.new ≡ after_change self.old (ClearCell row col)) }
    {
        let value = ValText::new(self.alloc, "null")?;
        remove_rising(&mut self.cells, CellRec { row, col, value });
        Ok(())
    }

    // Takes the interval of that label and id out.
    fn drop_interval(&mut self, label: Text, id: Text)
        ensures { self.new ≡ after_change self.old (DropInterval label id) }
    {
        let interval = IntervalRec {
            label,
            id,
            ends: Ends2 { start: -1, end: -1 },
            props: Props::new(self.alloc),
        };
        remove_rising(&mut self.intervals, interval);
    }
}
