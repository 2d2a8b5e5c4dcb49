//! What normalisation makes of a merge tree.

ghost use Rattle.std.specs.Prelude.{◌≡◌, ℕ, IsFalse, IsTrue, OnErr, OnOk, Some, false, filter, map, not, true};
ghost use Rattle.std.specs.List.{list_any};
ghost use Rattle.ft_base.specs.Visibility.{is_acked};
ghost use Rattle.ft_block.specs.Leaves.{IsLeafIn, change_leaf, value_at};
ghost use Rattle.ft_tree_leaves.specs.declared.leaves.TreeLeaf.{TreeLeaf};
ghost use Rattle.ft_tree_leaves.specs.Edits.{sequenced_leaf, with_place};
ghost use Rattle.ft_tree_leaves.specs.LeafLists.{elements};
ghost use Rattle.ft_tree_leaves.specs.References.{ChangesReferences, KeepsReferences};
ghost use Rattle.ft_rebase.specs.Moves.{leaf_stamps};
ghost use Rattle.ft_rebase.specs.Normalised.{carried_by, carried_leaf, carried_pair, is_gone, rebuilt_list};
ghost use Rattle.ft_rebase.specs.RebuiltPlaces.{rebuilt_place};
ghost use Rattle.ft_rebase.specs.Spots.{KeepsSpots, StaysInUse};
ghost use Rattle.ft_rebase.specs.StageLists.{StagesUpTo, StandSideBySide, sequenced};
ghost use Rattle.ft_tree.specs.State.{KeepsRest};

use crate::moves::move_stages;
use ft_arena::NodeId;
use ft_base::{Element, OutOfMemory, Stamp};
use ft_tree::Tree;
use ft_tree_leaves::Content;
use ft_tree_leaves::stamps::has_sequenced;

/// Brings a merge tree in order after its pending stages were regenerated, so that it is as if they had been made afresh:
/// what is pending on elements with a sequenced removal goes, and the leaves of pending insertions move to where the order
/// will put them. The elements of each stage stand side by side in its view. Every leaf keeps its node, and every reference
/// its element; a detached one stays so. It goes to the leaves that each pending stage touched, a few times for each stage.
///
/// Returns `OutOfMemory` where there is no room for it, and then the tree may be used no more.
pub fn normalise<C: Content>(tree: &mut Tree<C>) -> Result<(), OutOfMemory>
where
    C: Drop,
    requires usable { IsTrue tree.old.usable }
    requires side { StandSideBySide (λ e. e.stamps) (elements C.units C.by tree.old.leaves) }
    ensures elements { let old = elements C.units C.by tree.old.leaves in
        (last : ℕ) → StagesUpTo (λ e. e.stamps) last old
        → OnOk result (elements C.units C.by tree.new.leaves ≡ rebuilt_list last old) }
    ensures nodes { OnOk result (filter (sequenced leaf_stamps) tree.new.leaves
        ≡ map carried_pair (filter (sequenced leaf_stamps) tree.old.leaves)) }
    ensures refs { OnOk result (KeepsSpots C.units tree.old tree.new) }
    ensures places { let old = elements C.units C.by tree.old.leaves in
        (last : ℕ) → StagesUpTo (λ e. e.stamps) last old
        → OnOk result (ChangesReferences (with_place (rebuilt_place (λ e. e.stamps) last old)) tree.old.refs tree.new.refs) }
    ensures rest { OnOk result (KeepsRest tree.old tree.new) }
    ensures made { OnOk result (tree.new.made ≡ tree.old.made) }
    ensures usable { OnOk result (tree.new.usable ≡ true) }
    ensures err { OnErr result (tree.new.usable ≡ false) }
{
    match carry_leaves(tree) {
        Ok(()) => match move_stages(tree) {
            Ok(()) => Ok(()),
            Err(e) => {
                tree.spoil();
                Err(e)
            }
        },
        Err(e) => {
            tree.spoil();
            Err(e)
        }
    }
}

// Whether the insertion and a removal are sequenced.
fn is_gone(e: &Element) -> bool
    ensures { result ≡ is_gone e.now }
{
    matches!(e.ins, Stamp::Acked { .. }) && has_sequenced(e.dels.as_slice())
}

// Whether one of the stamps is pending.
fn has_local(stamps: &[Stamp]) -> bool
    ensures { result ≡ list_any (λ t. not (is_acked t)) stamps.now }
{
    stamps
        .iter()
        .any(|stamp| matches!(stamp, Stamp::Local { .. }))
}

// Whether a removal or changes are pending on a leaf.
fn has_pending<C: Content>(tree: &Tree<C>, leaf: NodeId) -> bool
    requires usable { IsTrue tree.now.usable }
    requires live { IsLeafIn tree.now.leaves leaf }
    ensures none { IsFalse result → (v : TreeLeaf C) → value_at tree.now.leaves leaf ≡ Some v → sequenced_leaf v ≡ v }
    ensures some { (v : TreeLeaf C) → value_at tree.now.leaves leaf ≡ Some v → sequenced_leaf v ≡ v → IsFalse result }
{
    let marked = has_local(tree.leaf_element(leaf).dels.as_slice());
    marked || tree.leaf_overlay(leaf).has_pending()
}

// Takes what is pending off a leaf whose insertion and a removal of it are sequenced.
fn carry_leaf<C: Content>(tree: &mut Tree<C>, leaf: NodeId) -> Result<(), OutOfMemory>
    requires usable { IsTrue tree.old.usable }
    requires live { IsLeafIn tree.old.leaves leaf }
    ensures leaves { OnOk result (tree.new.leaves ≡ change_leaf carried_leaf tree.old.leaves leaf) }
    ensures refs { OnOk result (KeepsReferences tree.old.refs tree.new.refs) }
    ensures stays { OnOk result (StaysInUse tree.old tree.new) }
{
    // What holds of the leaves at any time is read off its contract.
    let _first = tree.first_leaf();
    if !is_gone(tree.leaf_element(leaf)) || !has_pending(tree, leaf) {
        return Ok(());
    }
    tree.unmark_all(leaf)?;
    Ok(())
}

// Takes what is pending off the leaves of which the stage has something and whose insertion and a removal of it are
// sequenced.
fn carry_stage<C: Content>(tree: &mut Tree<C>, stage: u64) -> Result<(), OutOfMemory>
    requires { IsTrue tree.old.usable }
    ensures leaves { OnOk result (tree.new.leaves ≡ map (carried_by stage) tree.old.leaves) }
    ensures refs { OnOk result (KeepsReferences tree.old.refs tree.new.refs) }
    ensures stays { OnOk result (StaysInUse tree.old tree.new) }
{
    // What holds of the leaves at any time is read off its contract.
    let _first = tree.first_leaf();
    let touched = tree.stage_leaves(stage)?;
    for leaf in &touched {
        carry_leaf(tree, *leaf)?;
    }
    Ok(())
}

// Takes what is pending off all leaves whose insertion and a removal of it are sequenced. Then no stage lists a leaf of which
// it has nothing.
fn carry_leaves<C: Content>(tree: &mut Tree<C>) -> Result<(), OutOfMemory>
    requires { IsTrue tree.old.usable }
    ensures leaves { OnOk result (tree.new.leaves ≡ map carried_pair tree.old.leaves) }
    ensures refs { OnOk result (KeepsReferences tree.old.refs tree.new.refs) }
    ensures stays { OnOk result (StaysInUse tree.old tree.new) }
{
    let mut next = Some(0);
    while let Some(stage) = next {
        carry_stage(tree, stage)?;
        next = tree.next_pending(stage);
    }
    tree.prune()?;
    Ok(())
}
