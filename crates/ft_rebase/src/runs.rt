//! Runs of marked elements, as places from up to before among the seen ones.

ghost use Rattle.std.specs.Prelude.{◌≡◌, ℕ, List, OnOk};
ghost use Rattle.ft_rebase.specs.MarkedRuns.{continued, with_run};

use ft_base::OutOfMemory;

/// Adds a run at the end: it is joined to the last one where that ends where it begins.
pub(crate) fn push_run(runs: &mut Vec<(u64, u64)>, start: u64, end: u64) -> Result<(), OutOfMemory>
    ensures { OnOk result ((more : List (ℕ × ℕ)) → continued runs.new.items more ≡ continued runs.old.items (with_run (start, end) more)) }
{
    let Some((first, last)) = runs.pop() else {
        runs.push((start, end))?;
        return Ok(());
    };
    if last == start {
        runs.push((first, end))?;
        return Ok(());
    }
    runs.push((first, last))?;
    runs.push((start, end))?;
    Ok(())
}
