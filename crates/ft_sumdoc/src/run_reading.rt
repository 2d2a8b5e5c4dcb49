//! Reading the runs of rows and columns.

ghost use Rattle.std.specs.Prelude.{◌≡◌, ◌^◌, IfOk, nat_le, map};
ghost use Rattle.ft_sumdoc.specs.Items.{run_of};
ghost use Rattle.ft_sumdoc.specs.Runs.{given_units, kept_run};

use crate::item_reading::ListedItem;
use crate::items::RunItem;
use crate::limits::MOST_UNITS;
use crate::stamp_reading::stamp_item;
use crate::stamp_tests::given_insertion;
use crate::summary::{RunRec, RunRecs};
use ft_base::{Datum, OutOfMemory};
use ft_json::{Field, count, field};
use serde_json::Value;
use std::alloc::Global;

impl<'a> ListedItem<'a> for RunItem {
    ghost use Rattle.std.specs.Prelude.{◌^◌, nat_le};
    ghost use Rattle.ft_sumdoc.specs.Items.{run_of};
    ghost use Rattle.ft_sumdoc.specs.Narrow.{narrow_run};
    ghost use Rattle.ft_sumdoc.specs.Runs.{GivenRun, given_units};

    type Limits = ();

    ghost Meant = { GivenRun };

    ghost meaning = { run_of };

    ghost form = { λ _. narrow_run };

    ghost together = { λ runs. nat_le (given_units runs) (2 ^ 52) };

    fn read_item(
        alloc: Global,
        _limits: (),
        value: &'a Value,
    ) -> Result<Option<RunItem>, OutOfMemory> {
        let Some(units) = field(value, Field::RunLength).and_then(count) else {
            return Ok(None);
        };
        let Some(stamps) = stamp_item(alloc, None, value)? else {
            return Ok(None);
        };
        if units == 0 {
            return Ok(None);
        }
        Ok(Some(RunItem { units, stamps }))
    }

    fn may_stand(items: &[RunItem]) -> bool {
        are_few(items)
    }
}

// Whether the runs have at most 2^52 units.
fn are_few(runs: &[RunItem]) -> bool
    ensures { result ≡ nat_le (given_units (map run_of runs.now)) (2 ^ 52) }
{
    let mut left = MOST_UNITS;
    for run in runs {
        if run.units > left {
            return false;
        }
        left -= run.units;
    }
    true
}

// The run, as it is kept.
fn keep_run(run: &RunItem) -> Result<RunRec, OutOfMemory>
    ensures { IfOk result (λ kept. kept ≡ kept_run (run_of run.now)) }
{
    Ok(RunRec {
        count: run.units,
        ins: given_insertion(&run.stamps),
        dels: run.stamps.removals.copy()?,
    })
}

/// The runs, as they are kept.
pub(crate) fn keep_runs(alloc: Global, runs: &[RunItem]) -> Result<RunRecs, OutOfMemory>
    ensures { IfOk result (λ kept. kept ≡ map kept_run (map run_of runs.now)) }
{
    let mut kept = RunRecs::new(alloc);
    for run in runs {
        kept.push(keep_run(run)?)?;
    }
    Ok(kept)
}
