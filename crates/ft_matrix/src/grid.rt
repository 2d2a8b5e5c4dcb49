//! The parts of a shared table.

ghost use Rattle.std.specs.Prelude.{◌≡◌, OnOk};
ghost use Rattle.std.specs.Borrow.{sem};
ghost use Rattle.ft_matrix.specs.Empty.{IsEmptyGrid};
ghost use Rattle.ft_matrix.specs.Sides.{lends_units, units_at, with_more_made};

use crate::messages::more;
use crate::stages::GridStage;
use ft_base::OutOfMemory;
use ft_cells::Cells;
use ft_op::Target;
use ft_perm::Vector;
use std::alloc::Global;
use std::collections::VecDeque;

/// Rows and columns, cells, the pending stages in order, and how many rows and columns were ever sequenced. The parts go
/// together only while no call ran out of memory: `SharedMatrix` keeps that.
#[derive(Drop)]
pub struct Grid {
    pub rows: Vector,
    pub cols: Vector,
    pub cells: Cells,
    pub stages: VecDeque<GridStage>,
    pub rows_made: u64,
    pub cols_made: u64,
}

impl Grid {
    /// No rows, no columns, no cells, nothing pending.
    pub fn new(alloc: Global) -> Grid
        ensures { IsEmptyGrid result }
    {
        Grid {
            rows: Vector::new(alloc),
            cols: Vector::new(alloc),
            cells: Cells::new(alloc),
            stages: VecDeque::new(alloc),
            rows_made: 0,
            cols_made: 0,
        }
    }

    /// The rows, or the columns.
    pub fn units(&self, target: Target) -> &Vector
        ensures { result.now ≡ units_at target self.now }
    {
        match target {
            Target::Rows => &self.rows,
            Target::Cols => &self.cols,
        }
    }

    /// The rows, or the columns, to be changed.
    pub fn units_mut(&mut self, target: Target) -> &mut Vector
        ensures* writes_back { sem 𝓛 (lends_units target self.entry result) }
        ensures value { result.now ≡ units_at target self.old }
    {
        match target {
            Target::Rows => &mut self.rows,
            Target::Cols => &mut self.cols,
        }
    }

    /// Counts rows or columns that were sequenced.
    ///
    /// Returns `OutOfMemory` where their count would pass 2^64 - 1.
    pub fn count_made(&mut self, target: Target, count: u64) -> Result<(), OutOfMemory>
        ensures { OnOk result (self.new ≡ with_more_made target count self.old) }
    {
        match target {
            Target::Rows => self.rows_made = more(self.rows_made, count)?,
            Target::Cols => self.cols_made = more(self.cols_made, count)?,
        }
        Ok(())
    }
}
