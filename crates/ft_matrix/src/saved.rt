//! The units of a vector as the runs of a summary: one walk over its leaves.

ghost use Rattle.std.specs.Prelude.{◌≡◌, [], IfOk, IsTrue, List, OnOk, Some};
ghost use Rattle.ft_block.specs.Leaves.{IsLeafIn, value_at};
ghost use Rattle.ft_tree_leaves.specs.declared.leaves.TreeLeaf.{TreeLeaf};
ghost use Rattle.ft_perm.specs.Handles.{HandleRun};
ghost use Rattle.ft_perm.specs.Vectors.{vector_elements};
ghost use Rattle.ft_sumdoc.specs.declared.summary.RunRec.{RunRec};
ghost use Rattle.ft_msg.specs.JoinedRuns.{with_run};
ghost use Rattle.ft_matrix.specs.SavedUnits.{AddsLeaf, Joins, continued, saved_runs, unit_run};
ghost use Rattle.ft_matrix.specs.Units.{units_of};

use crate::messages::more;
use ft_arena::NodeId;
use ft_base::moved::{after, push_unless};
use ft_base::{Element, OutOfMemory};
use ft_marks::{insertion_of, is_collectable, marks_of, same_stamps};
use ft_perm::{Handles, Vector};
use ft_sumdoc::{RunRec, RunRecs};
use ft_tree::Tree;
use std::alloc::Global;

// A run of so many units with these stamps, as a summary at this minimum has it.
fn run_of(alloc: Global, stamps: &Element, count: u64, min: u64) -> Result<RunRec, OutOfMemory>
    ensures { IfOk result (λ run. run ≡ unit_run min stamps.now count) }
{
    let dels = marks_of(alloc, stamps.dels.as_slice())?;
    Ok(RunRec {
        count,
        ins: insertion_of(&stamps.ins, min),
        dels,
    })
}

// Adds a run behind the others: it is joined to the last one where their stamps are equal.
fn push_run(runs: &mut Vec<RunRec>, run: RunRec) -> Result<(), OutOfMemory>
    ensures { OnOk result ((rest : List RunRec) → continued runs.new.items rest ≡ continued runs.old.items (with_run run rest)) }
{
    let joined = join_last(runs, &run);
    push_unless(joined, runs, run)
}

// Counts the units of a run with those of the last one of others, if their stamps are equal. Returns whether they are.
fn join_last(runs: &mut Vec<RunRec>, run: &RunRec) -> Result<bool, OutOfMemory>
    ensures { IfOk result (Joins run.now runs.old.items runs.new.items) }
{
    let Some(last) = runs.last_mut() else {
        return Ok(false);
    };
    if !same_stamps(last.ins, &last.dels, run.ins, &run.dels) {
        return Ok(false);
    }
    last.count = more(run.count, last.count)?;
    Ok(true)
}

// Adds the units of a leaf behind the others, unless they were removed at or below the minimum.
fn add_leaf(
    tree: &Tree<Handles>,
    leaf: NodeId,
    min: u64,
    runs: &mut Vec<RunRec>,
) -> Result<(), OutOfMemory>
    requires usable { IsTrue tree.now.usable }
    requires live { IsLeafIn tree.now.leaves leaf }
    ensures { OnOk result ((x : TreeLeaf HandleRun) → value_at tree.now.leaves leaf ≡ Some x → AddsLeaf min x runs.old.items runs.new.items) }
{
    let count = tree.leaf_len(leaf);
    let stamps = tree.leaf_element(leaf);
    if is_collectable(stamps.dels.as_slice(), min) {
        return Ok(());
    }
    let run = run_of(tree.allocator(), stamps, count, min)?;
    push_run(runs, run)
}

/// The runs of units of a summary at this minimum.
pub fn saved_units(units: &Vector, min: u64) -> Result<RunRecs, OutOfMemory>
    requires { IsTrue units.now.tree.usable }
    ensures { IfOk result (λ runs. runs ≡ saved_runs min (units_of units.now)) }
{
    saved_elements(&units.tree, min)
}

// The same of the elements of a tree.
fn saved_elements(tree: &Tree<Handles>, min: u64) -> Result<RunRecs, OutOfMemory>
    requires { IsTrue tree.now.usable }
    ensures { IfOk result (λ runs. runs ≡ saved_runs min (vector_elements tree.now)) }
{
    let mut runs = Vec::new(tree.allocator());
    let added = add_leaves(tree, min, &mut runs);
    after(added, RunRecs::of(runs))
}

// Adds the units of all leaves, unless they were removed at or below the minimum.
fn add_leaves(tree: &Tree<Handles>, min: u64, runs: &mut Vec<RunRec>) -> Result<(), OutOfMemory>
    requires usable { IsTrue tree.now.usable }
    requires none { runs.old.items ≡ [] }
    ensures { OnOk result (runs.new.items ≡ saved_runs min (vector_elements tree.now)) }
{
    let mut next = tree.first_leaf();
    while let Some(leaf) = next {
        add_leaf(tree, leaf, min, runs)?;
        next = tree.next_leaf(leaf);
    }
    Ok(())
}
