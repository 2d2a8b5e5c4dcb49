//! What leads from cells and intervals to others, both in order.

ghost use Rattle.std.specs.Prelude.{◌≡◌, ◌≤◌, ◌++◌, ◌∷◌, [], IfOk, IsOkAnd, OnOk, cond, drop, length, map};
ghost use Rattle.ft_changes.specs.Told.{behind_set, dropped_before, not_before, set_unless_same, told_items};

use crate::changes::{ViewChange, ViewChanges};
use ft_base::moved::both;
use ft_base::{Datum, List, OutOfMemory};
use ft_marks::same_props;
use ft_props::keys::compare;
use ft_sumdoc::{CellRec, IntervalRec};
use std::cmp::Ordering;

/// What stands in an order, and is set and dropped one by one.
pub trait ShownItem: Sized + Drop {
    ghost use Rattle.std.specs.Prelude.{◌≡◌, Bool, IfOk};
    ghost use Rattle.std.specs.declared.cmp.Ordering.{Ordering};
    ghost use Rattle.ft_changes.specs.declared.changes.ViewChange.{ViewChange};

    /// The order.
    ghost order: { Self → Self → Ordering };

    /// Whether two of one place in the order are equal.
    ghost same: { Self → Self → Bool };

    /// The change that sets it.
    ghost set: { Self → ViewChange };

    /// The change that drops it.
    ghost dropped: { Self → ViewChange };

    /// The order of the two.
    fn compare(&self, other: &Self) -> Ordering
        ensures { result ≡ order self.now other.now };

    /// Whether the other, of the same place in the order, is equal.
    fn is_same(&self, other: &Self) -> bool
        ensures { result ≡ same self.now other.now };

    /// The change that sets it.
    fn setting(&self) -> Result<ViewChange, OutOfMemory>
        ensures { IfOk result (λ change. change ≡ set self.now) };

    /// The change that drops it.
    fn dropping(&self) -> Result<ViewChange, OutOfMemory>
        ensures { IfOk result (λ change. change ≡ dropped self.now) };
}

impl ShownItem for CellRec {
    ghost use Rattle.ft_changes.specs.declared.changes.ViewChange.TheVariants.{ClearCell, SetCell};
    ghost use Rattle.ft_changes.specs.Shown.{cell_order};
    ghost use Rattle.ft_changes.specs.Told.{same_cell_value};

    ghost order = { λ a b. cell_order a b };

    ghost same = { λ a b. same_cell_value a b };

    ghost set = { λ c. SetCell c.row c.col c.value };

    ghost dropped = { λ c. ClearCell c.row c.col };

    fn compare(&self, other: &CellRec) -> Ordering {
        self.row.cmp(&other.row).then(self.col.cmp(&other.col))
    }

    fn is_same(&self, other: &CellRec) -> bool {
        self.value.as_str() == other.value.as_str()
    }

    fn setting(&self) -> Result<ViewChange, OutOfMemory> {
        Ok(ViewChange::SetCell {
            row: self.row,
            col: self.col,
            value: self.value.copy()?,
        })
    }

    fn dropping(&self) -> Result<ViewChange, OutOfMemory> {
        Ok(ViewChange::ClearCell {
            row: self.row,
            col: self.col,
        })
    }
}

impl ShownItem for IntervalRec {
    ghost use Rattle.ft_changes.specs.declared.changes.ViewChange.TheVariants.{DropInterval, SetInterval};
    ghost use Rattle.ft_changes.specs.Shown.{interval_order};
    ghost use Rattle.ft_changes.specs.Told.{same_interval};

    ghost order = { λ a b. interval_order a b };

    ghost same = { λ a b. same_interval a b };

    ghost set = { λ i. SetInterval i };

    ghost dropped = { λ i. DropInterval i.label i.id };

    fn compare(&self, other: &IntervalRec) -> Ordering {
        compare(self.label.as_str(), other.label.as_str()).then(compare(
            self.id.as_str(),
            other.id.as_str(),
        ))
    }

    fn is_same(&self, other: &IntervalRec) -> bool {
        self.ends.start == other.ends.start
            && self.ends.end == other.ends.end
            && same_props(&self.props, &other.props)
    }

    fn setting(&self) -> Result<ViewChange, OutOfMemory> {
        Ok(ViewChange::SetInterval {
            interval: self.copy()?,
        })
    }

    fn dropping(&self) -> Result<ViewChange, OutOfMemory> {
        let (label, id) = both(self.label.copy(), self.id.copy())?;
        Ok(ViewChange::DropInterval { label, id })
    }
}

/// Adds what leads from the items before to those after.
///
/// Returns `OutOfMemory` where there is no room for it.
pub(crate) fn tell_items<T: ShownItem>(
    before: &[T],
    after: &[T],
    changes: &mut ViewChanges,
) -> Result<(), OutOfMemory>
    ensures { OnOk result (changes.new ≡ changes.old ++ told_items T.order T.same T.set T.dropped before.now after.now) }
{
    let mut place = 0;
    for item in after {
        place += tell_item(&before[place..], item, changes)?;
    }
    drop_all(&before[place..], changes)
}

// Adds what leads to the item from those that are left, and tells how many of these are done.
fn tell_item<T: ShownItem>(
    left: &[T],
    item: &T,
    changes: &mut ViewChanges,
) -> Result<usize, OutOfMemory>
    ensures count { IfOk result (λ count. count ≤ length left.now) }
    ensures rest { IfOk result (λ count. drop count left.now ≡ behind_set T.order item.now (not_before T.order item.now left.now)) }
    ensures told { let order = T.order in
        OnOk result (changes.new ≡ changes.old ++ dropped_before order T.dropped item.now left.now ++ set_unless_same order T.same T.set item.now (not_before order item.now left.now)) }
{
    let count = drop_before(left, item, changes)?;
    let set = set_unless_same(&left[count..], item, changes)?;
    Ok(count + set)
}

// Drops those that are before the item, and tells how many they are.
fn drop_before<T: ShownItem>(
    left: &[T],
    item: &T,
    changes: &mut ViewChanges,
) -> Result<usize, OutOfMemory>
    ensures count { IfOk result (λ count. count ≤ length left.now) }
    ensures rest { IfOk result (λ count. drop count left.now ≡ not_before T.order item.now left.now) }
    ensures told { OnOk result (changes.new ≡ changes.old ++ dropped_before T.order T.dropped item.now left.now) }
{
    for (count, other) in left.iter().enumerate() {
        if !item.compare(other).is_gt() {
            return Ok(count);
        }
        push_change(changes, other.dropping())?;
    }
    Ok(left.len())
}

// Sets the item, unless it stands first as it is, and tells how many of those that are left it replaces.
fn set_unless_same<T: ShownItem>(
    left: &[T],
    item: &T,
    changes: &mut ViewChanges,
) -> Result<usize, OutOfMemory>
    ensures count { IfOk result (λ count. count ≤ length left.now) }
    ensures rest { IfOk result (λ count. drop count left.now ≡ behind_set T.order item.now left.now) }
    ensures told { OnOk result (changes.new ≡ changes.old ++ set_unless_same T.order T.same T.set item.now left.now) }
{
    match left {
        [other, ..] if item.compare(other).is_eq() => {
            set_unless(item.is_same(other), item, changes)?;
            Ok(1)
        }
        _ => {
            push_change(changes, item.setting())?;
            Ok(0)
        }
    }
}

// Sets the item, unless it is there as it is.
fn set_unless<T: ShownItem>(
    there: bool,
    item: &T,
    changes: &mut ViewChanges,
) -> Result<(), OutOfMemory>
    ensures { OnOk result (changes.new ≡ changes.old ++ cond there [] (T.set item.now ∷ [])) }
{
    if there {
        return Ok(());
    }
    push_change(changes, item.setting())
}

// Drops all that are left.
fn drop_all<T: ShownItem>(left: &[T], changes: &mut ViewChanges) -> Result<(), OutOfMemory>
    ensures { OnOk result (changes.new ≡ changes.old ++ map T.dropped left.now) }
{
    for item in left {
        push_change(changes, item.dropping())?;
    }
    Ok(())
}

// Adds a change behind the others, if it was made.
fn push_change<C: Drop>(
    changes: &mut List<C>,
    made: Result<C, OutOfMemory>,
) -> Result<(), OutOfMemory>
    ensures { OnOk result (IsOkAnd made (λ change. changes.new ≡ changes.old ++ change ∷ [])) }
{
    changes.push(made?)
}
