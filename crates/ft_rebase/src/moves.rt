//! How the leaves of pending insertions are moved in place, stage after stage.

ghost use Rattle.std.specs.Prelude.{◌≡◌, ℕ, ◌-◌, ◌≤◌, None, IsTrue, IfOk, OnOk, filter};
ghost use Rattle.ft_base.specs.Scan.{len};
ghost use Rattle.ft_block.specs.Leaves.{IsLeafIn, IsPlaceIn, move_leaf, value_at, without_leaf};
ghost use Rattle.ft_rebase.specs.Moves.{AreMoves, EndsLeaf, leaf_stamps, moved_stage, seen_node, seen_size};
ghost use Rattle.ft_rebase.specs.RebuiltPlaces.{MovesStages};
ghost use Rattle.ft_rebase.specs.Spots.{KeepsSpots, StaysInUse};
ghost use Rattle.ft_rebase.specs.StageLists.{StagesUpTo, StandSideBySide, seen_by, sequenced};
ghost use Rattle.ft_tree_leaves.specs.LeafLists.{elements};

use crate::positions::{inserted_leaves, insertion_position};
use ft_arena::NodeId;
use ft_base::OutOfMemory;
use ft_block::LenView;
use ft_tree::Tree;
use ft_tree_leaves::Content;

/// A pending insertion stage, and how many elements that the stage before sees stand left of its own.
#[derive(Clone, Copy, Debug, PartialEq, Eq, Drop)]
pub struct StageMove {
    pub stage: u64,
    pub position: u64,
}

/// Moves the leaves of pending insertions to where the order will put them: stage after stage, each behind as many
/// elements that the stage before sees as stood left of it before any move. The elements of each stage stand side by side
/// in its view. Every leaf keeps its node, and every reference its element.
pub(crate) fn move_stages<C: Content>(tree: &mut Tree<C>) -> Result<(), OutOfMemory>
where
    C: Drop,
    requires usable { IsTrue tree.old.usable }
    requires side { StandSideBySide (λ e. e.stamps) (elements C.units C.by tree.old.leaves) }
    ensures moves { (last : ℕ) → StagesUpTo (λ e. e.stamps) last (elements C.units C.by tree.old.leaves)
        → OnOk result (MovesStages C.units C.by last tree.old tree.new) }
    ensures nodes { OnOk result (filter (sequenced leaf_stamps) tree.new.leaves ≡ filter (sequenced leaf_stamps) tree.old.leaves) }
    ensures refs { OnOk result (KeepsSpots C.units tree.old tree.new) }
    ensures stays { OnOk result (StaysInUse tree.old tree.new) }
{
    // What holds of the leaves at any time is read off its contract.
    let _first = tree.first_leaf();
    let moves = stage_moves(tree)?;
    for next in &moves {
        put_stage(tree, next.stage, next.position)?;
    }
    // What holds of the leaves at any time is read off its contract.
    let _moved = tree.first_leaf();
    Ok(())
}

/// The moves of all pending insertion stages in rising order. Their positions are those before any of them is made.
pub(crate) fn stage_moves<C: Content>(tree: &Tree<C>) -> Result<Vec<StageMove>, OutOfMemory>
    requires { IsTrue tree.now.usable }
    ensures { IfOk result (λ v. AreMoves C.units 0 v.items tree.now.leaves) }
{
    let mut moves = Vec::new(tree.allocator());
    let mut stage = 0;
    // What holds of the leaves at any time is read off its contract.
    let _first = tree.first_leaf();
    while let Some(next) = tree.next_pending(stage) {
        if let Some(position) = insertion_position(tree, next)? {
            moves.push(StageMove {
                stage: next,
                position,
            })?;
        }
        stage = next;
    }
    Ok(moves)
}

// The leaf that ends behind the first `position` elements that the stage sees: None where that is the head.
fn leaf_before<C: Content>(tree: &Tree<C>, position: u64, stage: u64) -> Option<NodeId>
    requires { IsTrue tree.now.usable }
    ensures { (q : ℕ) → q ≤ len (seen_by leaf_stamps stage) tree.now.leaves → position ≡ seen_size C.units stage q tree.now.leaves
        → result ≡ seen_node (seen_by leaf_stamps stage) q None tree.now.leaves }
{
    // What holds of the leaves at any time is read off its contract.
    let _first = tree.first_leaf();
    match tree.find(position, LenView::Stage(stage)) {
        Some(found) => found.leaf,
        None => None,
    }
}

/// Moves the leaves that the stage inserted, side by side, behind the first `position` elements that the stage before
/// sees, which end a leaf.
pub(crate) fn put_stage<C: Content>(
    tree: &mut Tree<C>,
    stage: u64,
    position: u64,
) -> Result<(), OutOfMemory>
where
    C: Drop,
    requires usable { IsTrue tree.old.usable }
    requires stage { 1 ≤ stage }
    requires ends { EndsLeaf C.units position (stage - 1) tree.old.leaves }
    ensures leaves { (q : ℕ) → q ≤ len (seen_by leaf_stamps (stage - 1)) tree.old.leaves
        → position ≡ seen_size C.units (stage - 1) q tree.old.leaves
        → OnOk result (tree.new.leaves ≡ moved_stage leaf_stamps (stage - 1) q tree.old.leaves) }
    ensures refs { OnOk result (KeepsSpots C.units tree.old tree.new) }
    ensures stays { OnOk result (StaysInUse tree.old tree.new) }
{
    // What holds of the leaves at any time is read off its contract.
    let _first = tree.first_leaf();
    let mut leaves = inserted_leaves(tree, stage)?;
    let at = leaf_before(tree, position, stage - 1);
    while let Some(leaf) = leaves.pop() {
        move_behind(tree, leaf, &at)?;
    }
    Ok(())
}

// Moves a leaf directly after another, or to the head.
fn move_behind<C: Content>(
    tree: &mut Tree<C>,
    leaf: NodeId,
    at: &Option<NodeId>,
) -> Result<(), OutOfMemory>
where
    C: Drop,
    requires usable { IsTrue tree.old.usable }
    requires live { IsLeafIn tree.old.leaves leaf }
    requires place { IsPlaceIn (without_leaf tree.old.leaves leaf) at.now }
    ensures leaves { OnOk result (tree.new.leaves ≡ move_leaf tree.old.leaves leaf at.now (value_at tree.old.leaves leaf)) }
    ensures refs { OnOk result (KeepsSpots C.units tree.old tree.new) }
    ensures stays { OnOk result (StaysInUse tree.old tree.new) }
{
    // What holds of the leaves at any time is read off its contract.
    let _first = tree.first_leaf();
    match at {
        Some(other) => tree.move_leaf(leaf, Some(*other)),
        None => tree.move_leaf(leaf, None),
    }
}
