//! Which handles of rows or of columns are seen, and where.

ghost use Rattle.std.specs.Prelude.{◌≡◌, ◌++◌, [], ℕ, IfOk, IsTrue, List, OnOk, Some};
ghost use Rattle.ft_block.specs.Leaves.{IsLeafIn, last_stage, value_at};
ghost use Rattle.ft_tree_leaves.specs.declared.leaves.TreeLeaf.{TreeLeaf};
ghost use Rattle.ft_perm.specs.Handles.{HandleRun, handles_of};
ghost use Rattle.ft_perm.specs.Vectors.{seen_handles};
ghost use Rattle.ft_matrix.specs.Seen.{HoldsRuns, PlacesHandle, StandOnce, seen_in_leaf};

use crate::messages::more;
use ft_arena::NodeId;
use ft_base::OutOfMemory;
use ft_block::LenView;
use ft_perm::Handles;
use ft_tree::Tree;
use std::alloc::Global;
use std::collections::BTreeMap;

/// The view with all that is pending.
pub const LOCAL: LenView = LenView::Stage(u64::MAX);

/// Handles side by side that are seen: the first one, and its place among all that are.
#[derive(Clone, Copy)]
pub struct SeenRun {
    pub first: u64,
    pub place: u64,
}

/// The handles that are seen: runs of them, each by its last handle, and how many they are.
#[derive(Drop)]
pub struct SeenRuns {
    runs: BTreeMap<u64, SeenRun>,
    count: u64,
}

impl SeenRuns {
    // No handles.
    fn new(alloc: Global) -> SeenRuns
        ensures { HoldsRuns [] result }
    {
        SeenRuns {
            runs: BTreeMap::new(alloc),
            count: 0,
        }
    }

    // Adds handles behind the others.
    //
    // Returns `OutOfMemory` where there is no room for them, or they would be more than 2^64 - 1.
    fn add(&mut self, run: &Handles) -> Result<(), OutOfMemory>
        ensures { OnOk result ((hs : List ℕ) → HoldsRuns hs self.old → StandOnce (hs ++ handles_of run.now) → HoldsRuns (hs ++ handles_of run.now) self.new) }
    {
        let place = self.count;
        let count = more(place, run.count)?;
        let first = run.first;
        self.runs
            .insert(first + (run.count - 1), SeenRun { first, place })?;
        self.count = count;
        Ok(())
    }

    /// The place of a handle, if it is seen. It takes about the logarithm of the number of runs.
    pub fn place_of(&self, handle: u64) -> Option<u64>
        ensures { (hs : List ℕ) → HoldsRuns hs self.now → PlacesHandle hs handle result }
    {
        let (_, run) = self.runs.range(handle..).next()?;
        if handle < run.first {
            return None;
        }
        run.place.checked_add(handle - run.first)
    }
}

// Adds the handles of a leaf behind the others, if they are seen.
fn add_leaf(tree: &Tree<Handles>, leaf: NodeId, runs: &mut SeenRuns) -> Result<(), OutOfMemory>
    requires usable { IsTrue tree.now.usable }
    requires live { IsLeafIn tree.now.leaves leaf }
    ensures { OnOk result ((x : TreeLeaf HandleRun) → value_at tree.now.leaves leaf ≡ Some x → (hs : List ℕ) → HoldsRuns hs runs.old
        → StandOnce (hs ++ seen_in_leaf x) → HoldsRuns (hs ++ seen_in_leaf x) runs.new) }
{
    if !tree.leaf_is_seen(leaf, LOCAL) {
        return Ok(());
    }
    runs.add(tree.leaf_content(leaf))
}

/// The handles that the local view sees, found in one walk over the leaves.
pub fn seen_runs(tree: &Tree<Handles>) -> Result<SeenRuns, OutOfMemory>
    requires usable { IsTrue tree.now.usable }
    requires once { StandOnce (seen_handles last_stage tree.now) }
    ensures { IfOk result (HoldsRuns (seen_handles last_stage tree.now)) }
{
    let mut runs = SeenRuns::new(tree.allocator());
    let mut next = tree.first_leaf();
    while let Some(leaf) = next {
        add_leaf(tree, leaf, &mut runs)?;
        next = tree.next_leaf(leaf);
    }
    Ok(runs)
}
