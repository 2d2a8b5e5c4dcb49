//! The runs of units of a summary. They are made from the front: one is open, and the next unit is counted in it
//! or ends it.

ghost use Rattle.std.specs.Prelude.{◌≡◌, ◌++◌, IfOk, OnOk, map};
ghost use Rattle.ft_marks.specs.Marks.{mark_of};
ghost use Rattle.ft_msg.specs.SummaryOf.{unit_runs};
ghost use Rattle.ft_plain_summary.specs.OpenRuns.{ended_runs, open_run};

use ft_base::OutOfMemory;
use ft_marks::{mark_of, marks_of, same_stamps};
use ft_plain_lists::PlainElement;
use ft_sumdoc::{RunRec, RunRecs};
use std::alloc::Global;

/// The runs of units.
///
/// Returns `OutOfMemory` where there is no room for them or the count of one would pass 2^64 - 1.
pub fn unit_runs(alloc: Global, items: &[PlainElement]) -> Result<RunRecs, OutOfMemory>
    ensures { IfOk result (λ runs. runs ≡ unit_runs items.now) }
{
    let mut runs = RunRecs::new(alloc);
    let mut last = None;
    for e in items {
        last = Some(count_unit(&mut runs, last, e)?);
    }
    if let Some(run) = last {
        runs.push(run)?;
    }
    Ok(runs)
}

// The run that is open after the unit; one that ends before it is added.
//
// Returns `OutOfMemory` where there is no room for them or the count would pass 2^64 - 1.
fn count_unit(
    runs: &mut RunRecs,
    last: Option<RunRec>,
    e: &PlainElement,
) -> Result<RunRec, OutOfMemory>
    ensures ended { OnOk result (runs.new ≡ runs.old ++ ended_runs last (mark_of e.now.ins) (map mark_of e.now.dels)) }
    ensures last { IfOk result (λ run. run ≡ open_run last (mark_of e.now.ins) (map mark_of e.now.dels)) }
{
    let ins = mark_of(&e.ins());
    let dels = marks_of(runs.allocator(), e.dels())?;
    if let Some(run) = last {
        if same_stamps(run.ins, &run.dels, ins, &dels) {
            let count = run.count.checked_add(1).ok_or(OutOfMemory)?;
            return Ok(RunRec { count, ins, dels });
        }
        runs.push(run)?;
    }
    Ok(RunRec {
        count: 1,
        ins,
        dels,
    })
}
