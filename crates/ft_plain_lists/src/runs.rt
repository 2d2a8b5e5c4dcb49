//! Runs of marked elements, as places among the seen ones.

ghost use Rattle.std.specs.Prelude.{◌≡◌, ◌+◌, ◌<◌, ◌^◌, IfOk, OnOk};
ghost use Rattle.ft_props.specs.Steps.{lowered_runs, marked_runs_from};
ghost use Rattle.ft_plain_lists.specs.PlacedRuns.{with_place};

use crate::element_tests::ElementTest;
use crate::elements::PlainElement;
use ft_base::OutOfMemory;
use ft_base::moved::push;
use std::alloc::Global;

/// The maximal runs of marked elements among the seen ones, as places from up to before.
pub fn marked_runs<T: ElementTest, M: ElementTest>(
    alloc: Global,
    items: &[PlainElement],
    seen: T,
    marked: M,
) -> Result<Vec<(u64, u64)>, OutOfMemory>
    ensures { IfOk result (λ runs. runs.items ≡ marked_runs_from 0 (T.test seen) (M.test marked) items.now) }
{
    let mut runs = Vec::new(alloc);
    let mut place: u64 = 0;
    for e in items {
        if seen.passes(e) {
            if marked.passes(e) {
                push_place(&mut runs, place)?;
            }
            place += 1;
        }
    }
    Ok(runs)
}

// Adds the place to the last run, if that ends there, or else as a run of its own.
fn push_place(runs: &mut Vec<(u64, u64)>, place: u64) -> Result<(), OutOfMemory>
    requires { place + 1 < 2 ^ 64 }
    ensures { OnOk result (runs.new.items ≡ with_place runs.old.items place) }
{
    let Some((start, end)) = runs.pop() else {
        return push(runs, (place, place + 1));
    };
    if end == place {
        return push(runs, (start, place + 1));
    }
    push(runs, (start, end))?;
    push(runs, (place, place + 1))
}

/// The runs, each lowered by the lengths of those before it, as after their removal.
///
/// Returns `OutOfMemory` where there is no room for them, or their lengths pass 2^64 - 1.
pub fn lowered_runs(alloc: Global, runs: &[(u64, u64)]) -> Result<Vec<(u64, u64)>, OutOfMemory>
    ensures { IfOk result (λ lowered. lowered.items ≡ lowered_runs 0 runs.now) }
{
    let mut lowered = Vec::new(alloc);
    let mut removed: u64 = 0;
    for (start, end) in runs {
        let run = (start.saturating_sub(removed), end.saturating_sub(removed));
        push(&mut lowered, run)?;
        let length = end.saturating_sub(*start);
        removed = removed.checked_add(length).ok_or(OutOfMemory)?;
    }
    Ok(lowered)
}
