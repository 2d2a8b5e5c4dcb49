//! The marks of a pending stage on the leaves of a tree.

ghost use Rattle.std.specs.Prelude.{◌≡◌, Some, IsTrue, IfOk, option_map};
ghost use Rattle.ft_block.specs.Leaves.{IsLeafIn, value_at};
ghost use Rattle.ft_tree_leaves.specs.LeafLists.{elements};
ghost use Rattle.ft_rebase.specs.Pieces.{leaf_has_mark, marked_runs};
ghost use Rattle.ft_rebase.specs.MarkedRuns.{RunsRise};

use crate::positions::stage_position;
use crate::runs::push_run;
use ft_arena::NodeId;
use ft_base::{OutOfMemory, seen_at};
use ft_tree::Tree;
use ft_tree_leaves::Content;
use ft_tree_leaves::stamps::has_stage;

/// What a pending stage may have on an element that it didn't insert.
#[derive(Clone, Copy, Debug, PartialEq, Eq)]
pub enum PendingMark {
    /// A removal.
    Removal,
    /// Changes of its properties.
    Changes,
}

// Whether the stage has this mark on the elements of a leaf.
fn has_mark<C: Content>(tree: &Tree<C>, leaf: NodeId, stage: u64, mark: PendingMark) -> bool
    requires usable { IsTrue tree.now.usable }
    requires live { IsLeafIn tree.now.leaves leaf }
    ensures { option_map (leaf_has_mark mark stage) (value_at tree.now.leaves leaf) ≡ Some result }
{
    match mark {
        PendingMark::Removal => has_stage(tree.leaf_element(leaf).dels.as_slice(), stage),
        PendingMark::Changes => tree.leaf_overlay(leaf).has(stage),
    }
}

/// The maximal runs of elements with this mark of the stage among those that the stage before sees. It goes to the leaves
/// that the stage touched, and finds the place of each that has seen elements with the mark.
pub(crate) fn marked_runs<C: Content>(
    tree: &Tree<C>,
    stage: u64,
    mark: PendingMark,
) -> Result<Vec<(u64, u64)>, OutOfMemory>
    requires { IsTrue tree.now.usable }
    ensures runs { IfOk result (λ runs. runs.items ≡ marked_runs stage mark (elements C.units C.by tree.now.leaves)) }
    ensures rise { IfOk result (λ runs. RunsRise 0 runs.items) }
{
    let before = stage.saturating_sub(1);
    let mut runs = Vec::new(tree.allocator());
    // What holds of the leaves at any time is read off its contract.
    let _first = tree.first_leaf();
    let touched = tree.stage_leaves(stage)?;
    for leaf in &touched {
        if seen_at(tree.leaf_element(*leaf), before) && has_mark(tree, *leaf, stage, mark) {
            let start = stage_position(tree, *leaf, before);
            push_run(&mut runs, start, start + tree.leaf_len(*leaf))?;
        }
    }
    Ok(runs)
}
