//! Runs of shown elements that go away, or that have other properties now, as they are found from the front on.

ghost use Rattle.std.specs.Prelude.{◌≡◌, ◌+◌, ◌&&◌, [], IfOk, OnOk, map, nat_eq};
ghost use Rattle.ft_props.specs.Properties.{apply};
ghost use Rattle.ft_op.specs.Operation.{segment_contents};
ghost use Rattle.ft_sumdoc.specs.WellFormed.{same_props};
ghost use Rattle.ft_changes.specs.declared.changes.ViewChange.TheVariants.{Put};
ghost use Rattle.ft_changes.specs.PlacedRuns.{with_changed_behind, with_gone_behind};
ghost use Rattle.ft_changes.specs.Told.{styled_run, taken_run, taken_units, unless_no_elements};

use crate::changes::{ViewChange, ViewChanges};
use crate::rest::element_count;
use ft_base::moved::push;
use ft_base::{Datum, OutOfMemory};
use ft_marks::same_props;
use ft_op::{Seg, Target};
use ft_props::{PropSet, Props};
use std::alloc::Global;
use std::marker::Model;

/// A run of shown elements that go away, where those of the runs before it are gone already.
#[derive(Drop)]
pub struct TakenRun {
    place: u64,
    count: u64,
}

impl Model for TakenRun {
    ghost use Rattle.ft_changes.specs.ShownRuns.{GoneRun};

    ghost Value = { GoneRun };

    ghost view = { λ a. record { place = a.place; count = a.count } };
}

/// A run of shown elements that have these properties now.
#[derive(Drop)]
pub struct StyledRun {
    place: u64,
    count: u64,
    props: Props,
}

impl Model for StyledRun {
    ghost use Rattle.ft_props.specs.Properties.{PropertyList};
    ghost use Rattle.ft_changes.specs.ShownRuns.{ChangedRun};

    ghost Value = { ChangedRun PropertyList };

    ghost view = { λ a. record { place = a.place; count = a.count; props = a.props } };
}

/// Adds `count` elements that go away from `place` on, where those before are gone already: to the last run, if that
/// stands there, or else as a run of their own.
///
/// Returns `OutOfMemory` where there is no room for that, or the count of a run would pass 2^64 - 1.
pub fn push_taken(runs: &mut Vec<TakenRun>, place: u64, count: u64) -> Result<(), OutOfMemory>
    ensures { OnOk result (runs.new.items ≡ with_gone_behind runs.old.items place count) }
{
    let Some(last) = runs.pop() else {
        return push(runs, TakenRun { place, count });
    };
    if last.place == place {
        let count = last.count.checked_add(count).ok_or(OutOfMemory)?;
        return push(runs, TakenRun { place, count });
    }
    push(runs, last)?;
    push(runs, TakenRun { place, count })
}

/// Adds `count` elements from `place` on that have these properties now: to the last run, if that ends there with the
/// same ones, or else as a run of their own.
///
/// Returns `OutOfMemory` where there is no room for that, or the count of a run would pass 2^64 - 1.
pub fn push_styled(
    runs: &mut Vec<StyledRun>,
    place: u64,
    count: u64,
    props: Props,
) -> Result<(), OutOfMemory>
    ensures { OnOk result (runs.new.items ≡ with_changed_behind same_props runs.old.items place count props) }
{
    let Some(mut last) = runs.pop() else {
        return push(
            runs,
            StyledRun {
                place,
                count,
                props,
            },
        );
    };
    if goes_on(&last, place, &props) {
        last.count = last.count.checked_add(count).ok_or(OutOfMemory)?;
        return push(runs, last);
    }
    push(runs, last)?;
    push(
        runs,
        StyledRun {
            place,
            count,
            props,
        },
    )
}

// Whether the run ends at the place and has the same properties.
fn goes_on(run: &StyledRun, place: u64, props: &Props) -> bool
    ensures { result ≡ (nat_eq (run.now.place + run.now.count) place && same_props run.now.props props.now) }
{
    run.place.checked_add(run.count) == Some(place) && same_props(&run.props, props)
}

/// The insertion of a segment in front of the shown element at `pos`, with the properties that aren't null, as changes: none
/// where it has no elements.
pub fn puts(alloc: Global, pos: u64, seg: &Seg, props: &PropSet) -> Result<ViewChanges, OutOfMemory>
    ensures { IfOk result (λ changes. changes ≡ unless_no_elements (segment_contents seg.now) (Put pos seg.now (apply [] props.now))) }
{
    let mut changes = ViewChanges::new(alloc);
    if element_count(seg) != 0 {
        let props = Props::new(alloc).applied(props)?;
        let seg = seg.copy()?;
        changes.push(ViewChange::Put { pos, seg, props })?;
    }
    Ok(changes)
}

/// Runs of the text that go away, as changes.
pub fn takes(alloc: Global, runs: &[TakenRun]) -> Result<ViewChanges, OutOfMemory>
    ensures { IfOk result (λ changes. changes ≡ map taken_run runs.now) }
{
    let mut changes = ViewChanges::new(alloc);
    for run in runs {
        changes.push(ViewChange::Take {
            pos: run.place,
            count: run.count,
        })?;
    }
    Ok(changes)
}

/// Runs of rows or columns that go away, as changes.
pub fn takes_of_units(
    alloc: Global,
    target: Target,
    runs: &[TakenRun],
) -> Result<ViewChanges, OutOfMemory>
    ensures { IfOk result (λ changes. changes ≡ map (taken_units target) runs.now) }
{
    let mut changes = ViewChanges::new(alloc);
    for run in runs {
        changes.push(ViewChange::TakeUnits {
            target,
            pos: run.place,
            count: run.count,
        })?;
    }
    Ok(changes)
}

/// Runs with other properties, as changes.
pub fn styles(alloc: Global, runs: Vec<StyledRun>) -> Result<ViewChanges, OutOfMemory>
    ensures { IfOk result (λ changes. changes ≡ map styled_run runs.items) }
{
    let mut changes = ViewChanges::new(alloc);
    for run in runs {
        changes.push(ViewChange::Style {
            pos: run.place,
            count: run.count,
            props: run.props,
        })?;
    }
    Ok(changes)
}
