//! What is known of rows and columns, with places for names.

ghost use Rattle.ft_laws_names.specs.GridFacts.{SplicesAreCounted, UnitsAreBelow, UnitsAreFree};

/// In each client that steps made, or that keeps one which they made, all that is pending on rows and
/// columns is of stages up to the last one; a pending splice has as many units as it says; and a unit
/// that was removed at or below the floor may be taken out: nothing is pending on it, no stage names it,
/// and it stands before no pending one.
pub fn grids()
    ensures below { UnitsAreBelow }
    ensures counted { SplicesAreCounted }
    ensures free { UnitsAreFree }
{}
