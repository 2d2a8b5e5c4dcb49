//! Compaction: rows and columns that were removed at or below the floor are taken out, with their cells, and their handles are
//! free again.

ghost use Rattle.std.specs.Prelude.{◌≡◌, ◌≤◌, ℕ, All, IfOk, OnOk, false, true};
ghost use Rattle.ft_perm.specs.Handles.{in_run};
ghost use Rattle.ft_perm.specs.Vectors.{IsProper, in_use};
ghost use Rattle.ft_zamboni.specs.Scours.{is_collectable};
ghost use Rattle.ft_matrix.specs.Compacted.{AreGone, ClearsRun, CompactsGrid, FreesUnits, ScoursUnits, is_in_runs};
ghost use Rattle.ft_matrix.specs.Units.{units_of};
ghost use Rattle.ft_matrix.specs.Conditions.{AreFreeUnits, HasNoTombstone};
ghost use Rattle.ft_matrix.specs.GridStates.{grid_state};
ghost use Rattle.ft_matrix.specs.Sides.{units_at};
ghost use Rattle.ft_matrix.specs.Sound.{IsSound, IsSoundVector};

use crate::grid::Grid;
use ft_base::OutOfMemory;
use ft_op::Target;
use ft_perm::{Handles, Vector};
use ft_zamboni::{scour, scour_all};
use std::alloc::Global;

// Raises the floor of a vector, and takes the units out that were removed at or below it. Returns the runs of their handles, which
// are in use yet.
//
// Returns `OutOfMemory` where there is no room for what is kept, and then the vector may be used no more.
fn scour_units(units: &mut Vector, alloc: Global, floor: u64) -> Result<Vec<Handles>, OutOfMemory>
    requires sound { IsSoundVector units.old }
    requires rising { units.old.tree.floor ≤ floor }
    ensures sound { OnOk result (IsSoundVector units.new) }
    ensures scours { IfOk result (λ runs. ScoursUnits floor runs.items units.old units.new) }
    ensures none { OnOk result (All (λ e. is_collectable floor e.stamps ≡ false) (units_of units.new)) }
{
    let mut taken = Vec::new(alloc);
    scour_all(&mut units.tree, floor, &mut taken)?;
    Ok(taken)
}

// Raises the floor of a vector, and looks at `budget` further leaves: takes the units out that were removed at or below it. Returns
// the runs of their handles, which are in use yet.
//
// Returns `OutOfMemory` where there is no room for what is kept, and then the vector may be used no more.
fn scour_part(
    units: &mut Vector,
    alloc: Global,
    floor: u64,
    budget: u64,
) -> Result<Vec<Handles>, OutOfMemory>
    requires sound { IsSoundVector units.old }
    requires rising { units.old.tree.floor ≤ floor }
    ensures sound { OnOk result (IsSoundVector units.new) }
    ensures scours { IfOk result (λ runs. ScoursUnits floor runs.items units.old units.new) }
{
    let mut taken = Vec::new(alloc);
    scour(&mut units.tree, floor, budget, &mut taken)?;
    Ok(taken)
}

impl Grid {
    /// Raises the floor, and takes out all that was removed at or below it, with its cells: the handles are free again.
    ///
    /// Returns `OutOfMemory` where there is no room for what is kept, and then the grid may be used no more.
    pub fn compact(&mut self, alloc: Global, floor: u64) -> Result<(), OutOfMemory>
        requires sound { IsSound self.old }
        requires rising { self.old.rows.tree.floor ≤ floor }
        requires free { AreFreeUnits floor (grid_state self.old 0 true) }
        ensures compacts { OnOk result (CompactsGrid floor self.old self.new) }
        ensures none { OnOk result (HasNoTombstone floor (grid_state self.new 0 true)) }
    {
        let rows = scour_units(&mut self.rows, alloc, floor)?;
        let cols = scour_units(&mut self.cols, alloc, floor)?;
        self.free(Target::Rows, rows)?;
        self.free(Target::Cols, cols)
    }

    /// Raises the floor, and looks at `budget` further leaves of the rows and as many of the columns: those that were removed at or
    /// below it are taken out, with their cells, and their handles are free again.
    ///
    /// Returns `OutOfMemory` where there is no room for what is kept, and then the grid may be used no more.
    pub fn tidy(&mut self, alloc: Global, floor: u64, budget: u64) -> Result<(), OutOfMemory>
        requires sound { IsSound self.old }
        requires rising { self.old.rows.tree.floor ≤ floor }
        requires free { AreFreeUnits floor (grid_state self.old 0 true) }
        ensures { OnOk result (CompactsGrid floor self.old self.new) }
    {
        let rows = scour_part(&mut self.rows, alloc, floor, budget)?;
        let cols = scour_part(&mut self.cols, alloc, floor, budget)?;
        self.free(Target::Rows, rows)?;
        self.free(Target::Cols, cols)
    }

    // Takes the cells of rows or columns out that are gone, and frees their handles.
    fn free(&mut self, target: Target, mut taken: Vec<Handles>) -> Result<(), OutOfMemory>
        requires gone { AreGone taken.items (units_at target self.old) }
        ensures { OnOk result (FreesUnits target (is_in_runs taken.items) self.old self.new) }
    {
        while let Some(run) = taken.pop() {
            self.free_run(target, run)?;
        }
        Ok(())
    }

    // Takes the cells of a run of rows or columns out that are gone, and frees its handles.
    fn free_run(&mut self, target: Target, run: Handles) -> Result<(), OutOfMemory>
        requires used { (h : ℕ) → in_run h run ≡ true → in_use (units_at target self.old) h ≡ true }
        requires gone { All (λ e. in_run e.unit run ≡ false) (units_of (units_at target self.old)) }
        requires proper { IsProper (units_at target self.old) }
        ensures { OnOk result (FreesUnits target (λ h. in_run h run) self.old self.new) }
    {
        self.clear_run(target, &run);
        self.units_mut(target).recycle(run)
    }

    // Takes the cells of a run of rows or columns out.
    fn clear_run(&mut self, target: Target, run: &Handles)
        ensures { ClearsRun target run.now self.old self.new }
    {
        match target {
            Target::Rows => self.cells.clear_rows(run.first, run.count),
            Target::Cols => self.cells.clear_cols(run.first, run.count),
        }
    }
}
