//! Places in a table, in the order of rows or of columns.

ghost use Rattle.std.specs.Prelude.{◌≡◌, ℕ, None, IfSome, IfNone, IsSome, true, false};
ghost use Rattle.std.specs.BTreeMap as tree;
ghost use Rattle.ft_cells.specs.CellTables.{crossing, crossing_cmp, is_among};
ghost use Rattle.ft_cells.specs.Indexed.{has_place};

use crate::values::CellValues;
use std::collections::{BTreeMap, BTreeSet};

/// Where a line is crossed by another: a row and its column, or a column and its row.
#[derive(Clone, Copy, PartialEq, Eq, PartialOrd, Ord)]
pub struct Crossing {
    pub line: u64,
    pub across: u64,
}

/// The first place at which the cells have an entry on one of the `count` lines from this one on.
pub fn first_cell(cells: &BTreeMap<Crossing, CellValues>, line: u64, count: u64) -> Option<Crossing>
    ensures some { IfSome result (λ place. IsSome (tree.get crossing_cmp cells.now place)) }
    ensures none { IfNone result ((i across : ℕ) → is_among line count i ≡ true → tree.get crossing_cmp cells.now (crossing i across) ≡ None) }
    ensures among { IfSome result (λ place. is_among line count place.line ≡ true) }
{
    let (place, _) = cells.range(Crossing { line, across: 0 }..).next()?;
    if place.line - line < count {
        Some(*place)
    } else {
        None
    }
}

/// The first of the places that is on one of the `count` lines from this one on.
pub fn first_place(places: &BTreeSet<Crossing>, line: u64, count: u64) -> Option<Crossing>
    ensures some { IfSome result (λ place. has_place places.now place.line place.across ≡ true) }
    ensures none { IfNone result ((i across : ℕ) → is_among line count i ≡ true → has_place places.now i across ≡ false) }
    ensures among { IfSome result (λ place. is_among line count place.line ≡ true) }
{
    let place = places.range(Crossing { line, across: 0 }..).next()?;
    if place.line - line < count {
        Some(*place)
    } else {
        None
    }
}
