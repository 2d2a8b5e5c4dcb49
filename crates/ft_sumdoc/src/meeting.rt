//! Shown intervals that meet a range of the text.

ghost use Rattle.std.specs.Prelude.{◌≡◌, IfOk, filter};
ghost use Rattle.ft_sumdoc.specs.Meeting.{meets};

use crate::summary::IntervalRec;
use ft_base::{Datum, OutOfMemory, Text};
use ft_props::keys::compare;
use std::alloc::Global;

/// Copies of those intervals of the label that meet the places from `a` to `b`, in order.
pub fn meeting(
    alloc: Global,
    intervals: &[IntervalRec],
    label: &Text,
    a: u64,
    b: u64,
) -> Result<Vec<IntervalRec>, OutOfMemory>
    ensures { IfOk result (λ found. found.items ≡ filter (meets label.now a b) intervals.now) }
{
    let mut found = Vec::new(alloc);
    for interval in intervals {
        if meets(interval, label, a, b) {
            found.push(interval.copy()?)?;
        }
    }
    Ok(found)
}

/// Whether the interval is of the label, isn't detached, starts at or before `b` and ends at or after `a`.
pub fn meets(interval: &IntervalRec, label: &Text, a: u64, b: u64) -> bool
    ensures { result ≡ meets label.now a b interval.now }
{
    let ends = &interval.ends;
    compare(label.as_str(), interval.label.as_str()).is_eq()
        && 0 <= ends.start
        && ends.start as u64 <= b
        && 0 <= ends.end
        && a <= ends.end as u64
}
