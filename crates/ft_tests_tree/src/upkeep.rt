//! Acknowledgement, a mark that is taken back, and compaction.

ghost use Rattle.std.specs.Prelude.{◌≤◌, IsTrue, OnOk};
ghost use Rattle.ft_tests_tree.specs.Playing.{GoesTogether, Stays};
ghost use Rattle.ft_tests_tree.specs.Passing.{HasNoReferences};

use crate::faults::StepFault;
use crate::progress::Progress;
use crate::sights::push_count;
use crate::texts::acknowledge;
use ft_tree::{TextContent, Tree};
use ft_zamboni::{scour, scour_all};
use std::alloc::Global;

/// Acknowledges the first pending stage, and tells whether that can be done.
///
/// Returns `OutOfMemory` where there is no room for it.
pub(crate) fn acknowledge_next(
    tree: &mut Tree<TextContent>,
    progress: &mut Progress,
    seq: u64,
) -> Result<bool, StepFault>
    requires { GoesTogether tree.old progress.old }
    ensures { OnOk result (GoesTogether tree.new progress.new) }
{
    let (stage, calm) = (progress.first, progress.calm);
    if !calm || stage >= progress.stage {
        return Ok(false);
    }
    acknowledge(tree, stage, seq)?;
    progress.first = stage + 1;
    Ok(true)
}

// Takes back what the stage marks of the first leaf, and tells whether there is a leaf.
fn unmark_first(tree: &mut Tree<TextContent>, stage: u64) -> Result<bool, StepFault>
    requires { IsTrue tree.old.usable }
    ensures { OnOk result (Stays tree.old tree.new) }
{
    let Some(id) = tree.first_leaf() else {
        return Ok(false);
    };
    tree.unmark(id, stage)?;
    Ok(true)
}

/// Takes back what the stage marks of the first leaf, and tells whether there is a leaf.
///
/// Returns `OutOfMemory` where there is no room for it.
pub(crate) fn unmark(
    tree: &mut Tree<TextContent>,
    progress: &mut Progress,
    stage: u64,
) -> Result<bool, StepFault>
    requires { GoesTogether tree.old progress.old }
    ensures { OnOk result (GoesTogether tree.new progress.new) }
{
    progress.calm = false;
    let found = unmark_first(tree, stage)?;
    Ok(found)
}

// How many leaves a sweep over so many takes out.
fn some_swept(
    tree: &mut Tree<TextContent>,
    floor: u64,
    leaves: u64,
    taken: &mut Vec<TextContent>,
) -> Result<u64, StepFault>
    requires usable { IsTrue tree.old.usable }
    requires rising { tree.old.floor ≤ floor }
    requires free { HasNoReferences tree.old }
    ensures { OnOk result (Stays tree.old tree.new) }
{
    let count = scour(tree, floor, leaves, taken)?;
    Ok(count)
}

// How many leaves one over all takes out.
fn all_swept(
    tree: &mut Tree<TextContent>,
    floor: u64,
    taken: &mut Vec<TextContent>,
) -> Result<u64, StepFault>
    requires usable { IsTrue tree.old.usable }
    requires rising { tree.old.floor ≤ floor }
    requires free { HasNoReferences tree.old }
    ensures { OnOk result (Stays tree.old tree.new) }
{
    let count = scour_all(tree, floor, taken)?;
    Ok(count)
}

// How many leaves a sweep over so many takes out, or one over all where no number is given.
fn swept(
    alloc: Global,
    tree: &mut Tree<TextContent>,
    floor: u64,
    budget: Option<u64>,
) -> Result<u64, StepFault>
    requires usable { IsTrue tree.old.usable }
    requires rising { tree.old.floor ≤ floor }
    requires free { HasNoReferences tree.old }
    ensures { OnOk result (Stays tree.old tree.new) }
{
    let mut taken = Vec::new(alloc);
    let count = match budget {
        Some(leaves) => some_swept(tree, floor, leaves, &mut taken),
        None => all_swept(tree, floor, &mut taken),
    };
    drop(taken);
    count
}

/// Compacts so many leaves, or all where no number is given, adds how many that takes out, and tells whether it can be done.
///
/// Returns `OutOfMemory` where there is no room for it.
pub(crate) fn compact(
    alloc: Global,
    tree: &mut Tree<TextContent>,
    progress: &mut Progress,
    floor: u64,
    budget: Option<u64>,
    out: &mut String,
) -> Result<bool, StepFault>
    requires { GoesTogether tree.old progress.old }
    ensures { OnOk result (GoesTogether tree.new progress.new) }
{
    if floor < tree.floor() {
        return Ok(false);
    }
    progress.calm = false;
    let count = swept(alloc, tree, floor, budget)?;
    push_count("taken", count, out)?;
    Ok(true)
}
