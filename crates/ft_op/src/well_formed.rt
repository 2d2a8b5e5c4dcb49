//! Whether operations are well formed.

ghost use Rattle.std.specs.Prelude.{◌≡◌, ◌↔◌, IsTrue, IsFalse, is_some};
ghost use Rattle.std.specs.List.{AllByRecursion};
ghost use Rattle.ft_props.specs.Properties.{value_of};
ghost use Rattle.ft_op.specs.Cells.{is_null};
ghost use Rattle.ft_op.specs.WellFormed.{AreAdjustments, IsAdjustment, IsPropertySet, IsSetValue, IsWellFormed, IsWellFormedBase, IsWellFormedCell, IsWellFormedEnds, IsWellFormedGrid, IsWellFormedNewEnds, IsWellFormedText, are_bounds, are_ends, is_count, is_range, is_safe, is_safe_bound, is_segment};

use crate::limits::SPLICE_LIMIT;
use crate::operations::{BaseOp, CellOp, ChannelOp, Ends, GridOp, Seg, TextOp};
use ft_base::Text;
use ft_json::{GREATEST_COUNT, GREATEST_NUMBER, ValText};
use ft_props::{AdjSet, Adjust, Changes, PropSet};

/// Whether the operation is well formed, as each is that is read: its numbers are in range, no
/// positions, ends or bounds are reversed, no splice puts in more than 1,000,000 units, no key is
/// both set and adjusted, and each value has at most 100 levels, where null is None in a property
/// set.
pub fn is_well_formed(op: &ChannelOp) -> bool
    ensures { IsTrue result ↔ IsWellFormed op.now }
{
    match op {
        ChannelOp::Text(op) => is_well_formed_text(op),
        ChannelOp::Grid(op) => is_well_formed_grid(op),
    }
}

/// Whether the number is a position or a count: at most 2^53 - 1.
pub fn is_count(n: u64) -> bool
    ensures { result ≡ is_count n }
{
    n <= GREATEST_COUNT
}

/// Whether the value is null.
pub fn is_null(value: &ValText) -> bool
    ensures { result ≡ is_null value.now }
{
    value.as_str() == "null"
}

// Whether the operation of the text is well formed.
fn is_well_formed_text(op: &TextOp) -> bool
    ensures { IsTrue result ↔ IsWellFormedText op.now }
{
    match op {
        TextOp::One(op) => is_well_formed_base(op),
        TextOp::Group(ops) => are_well_formed_bases(ops.as_slice()),
        TextOp::IntervalAdd { ends, props, .. } => are_ends(*ends) && is_property_set(props),
        TextOp::IntervalChange { ends, props, .. } => are_new_ends(*ends) && is_property_set(props),
        TextOp::IntervalDelete { .. } => true,
    }
}

// Whether each member of the group is well formed.
fn are_well_formed_bases(ops: &[BaseOp]) -> bool
    ensures { IsTrue result ↔ AllByRecursion IsWellFormedBase ops.now }
{
    for op in ops {
        if !is_well_formed_base(op) {
            return false;
        }
    }
    true
}

// Whether the member of a group of the text is well formed.
fn is_well_formed_base(op: &BaseOp) -> bool
    ensures { IsTrue result ↔ IsWellFormedBase op.now }
{
    match op {
        BaseOp::Insert { pos, seg, props } => {
            is_count(*pos) && is_segment(seg) && is_property_set(props)
        }
        BaseOp::Remove { pos1, pos2 } => is_range(*pos1, *pos2),
        BaseOp::Annotate {
            pos1,
            pos2,
            changes,
        } => is_range(*pos1, *pos2) && are_changes(changes),
    }
}

// Whether the reference type of a marker is a count.
fn is_segment(seg: &Seg) -> bool
    ensures { result ≡ is_segment seg.now }
{
    match seg {
        Seg::Chars { .. } => true,
        Seg::Marker { ref_type } => is_count(*ref_type),
    }
}

// Whether what an annotation changes is well formed.
fn are_changes(changes: &Changes) -> bool
    ensures { IsTrue result ↔ (IsPropertySet changes.now.props × AreAdjustments changes.now.props changes.now.adjust) }
{
    is_property_set(&changes.props) && are_adjustments(&changes.props, &changes.adjust)
}

// Whether each value of the set may be one.
fn is_property_set(set: &PropSet) -> bool
    ensures { IsTrue result ↔ IsPropertySet set.now }
{
    for (_, value) in set.as_slice() {
        if !is_set_value(value) {
            return false;
        }
    }
    true
}

// Whether a key may be set to the value.
fn is_set_value(value: &Option<ValText>) -> bool
    ensures { IsTrue result ↔ IsSetValue value.now }
{
    match value {
        Some(value) => value.is_kept() && !is_null(value),
        None => true,
    }
}

// Whether each adjustment is well formed, and none is of a key of the set.
fn are_adjustments(set: &PropSet, adjustments: &AdjSet) -> bool
    ensures { IsTrue result ↔ AreAdjustments set.now adjustments.now }
{
    for (key, adjust) in adjustments.as_slice() {
        if !is_adjustment_beside(set, key, *adjust) {
            return false;
        }
    }
    true
}

// Whether the adjustment is well formed, and its key is none of the set.
fn is_adjustment_beside(set: &PropSet, key: &Text, adjust: Adjust) -> bool
    ensures { IsTrue result ↔ (IsFalse (is_some (value_of key.now set.now)) × IsAdjustment adjust) }
{
    !set.contains_key(key.as_str()) && is_adjustment(adjust)
}

// Whether the numbers of the adjustment are in range, and its bounds in order.
fn is_adjustment(adjust: Adjust) -> bool
    ensures { IsTrue result ↔ IsAdjustment adjust }
{
    is_safe(adjust.delta)
        && is_safe_bound(adjust.min)
        && is_safe_bound(adjust.max)
        && are_bounds(adjust.min, adjust.max)
}

// Whether it is a whole number from -(2^53 - 1) to 2^53 - 1.
fn is_safe(z: i64) -> bool
    ensures { result ≡ is_safe z }
{
    -GREATEST_NUMBER <= z && z <= GREATEST_NUMBER
}

// Whether it is such a number, if it is given.
fn is_safe_bound(bound: Option<i64>) -> bool
    ensures { result ≡ is_safe_bound bound }
{
    match bound {
        Some(z) => is_safe(z),
        None => true,
    }
}

// Whether the least value is at most the greatest, if both are given.
fn are_bounds(min: Option<i64>, max: Option<i64>) -> bool
    ensures { result ≡ are_bounds min max }
{
    match (min, max) {
        (Some(low), Some(high)) => low <= high,
        (None, _) | (Some(_), None) => true,
    }
}

/// Whether the positions are in order, and in range.
pub fn is_range(pos1: u64, pos2: u64) -> bool
    ensures { result ≡ is_range pos1 pos2 }
{
    pos1 <= pos2 && is_count(pos2)
}

// Whether the new ends may be those of an interval, if they are given.
fn are_new_ends(ends: Option<Ends>) -> bool
    ensures { IsTrue result ↔ IsWellFormedNewEnds ends }
{
    match ends {
        Some(ends) => are_ends(ends),
        None => true,
    }
}

// Whether both ends are -1, or they are positions in order.
fn are_ends(ends: Ends) -> bool
    ensures { IsTrue result ↔ IsWellFormedEnds ends }
{
    let Ends { start, end } = ends;
    (start == -1 && end == -1) || (start >= 0 && start <= end && end <= GREATEST_NUMBER)
}

// Whether the operation of the grid is well formed.
fn is_well_formed_grid(op: &GridOp) -> bool
    ensures { IsTrue result ↔ IsWellFormedGrid op.now }
{
    match op {
        GridOp::One(op) => is_well_formed_cell(op),
        GridOp::Group(ops) => are_well_formed_cells(ops.as_slice()),
    }
}

// Whether each member of the group is well formed.
fn are_well_formed_cells(ops: &[CellOp]) -> bool
    ensures { IsTrue result ↔ AllByRecursion IsWellFormedCell ops.now }
{
    for op in ops {
        if !is_well_formed_cell(op) {
            return false;
        }
    }
    true
}

// Whether the member of a group of the grid is well formed.
fn is_well_formed_cell(op: &CellOp) -> bool
    ensures { IsTrue result ↔ IsWellFormedCell op.now }
{
    match op {
        CellOp::SpliceIn { pos, count, .. } => is_count(*pos) && *count <= SPLICE_LIMIT,
        CellOp::SpliceOut { pos1, pos2, .. } => is_range(*pos1, *pos2),
        CellOp::Set { row, col, value } => is_count(*row) && is_count(*col) && value.is_kept(),
    }
}
