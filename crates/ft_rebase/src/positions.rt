//! Where leaves stand among the elements that a pending stage sees.

ghost use Rattle.std.specs.Prelude.{◌≡◌, IsTrue, IfOk, filter};
ghost use Rattle.ft_base.specs.Scan.{len};
ghost use Rattle.ft_block.specs.declared.leaves.LenView.TheVariants.{Stage};
ghost use Rattle.ft_block.specs.Leaves.{IsLeafIn, ids, left_of};
ghost use Rattle.ft_tree_leaves.specs.Elements.{seen_in};
ghost use Rattle.ft_tree_leaves.specs.LeafLists.{elements};
ghost use Rattle.ft_rebase.specs.Moves.{leaf_stamps};
ghost use Rattle.ft_rebase.specs.Pieces.{insertion_position};
ghost use Rattle.ft_rebase.specs.StageLists.{inserted_by};

use ft_arena::NodeId;
use ft_base::OutOfMemory;
use ft_block::LenView;
use ft_tree::Tree;
use ft_tree_leaves::Content;
use ft_tree_leaves::stamps::is_of_stage;

/// How many elements that the stage sees stand left of a leaf.
pub fn stage_position<C: Content>(tree: &Tree<C>, leaf: NodeId, stage: u64) -> u64
    requires usable { IsTrue tree.now.usable }
    requires live { IsLeafIn tree.now.leaves leaf }
    ensures { result ≡ len (seen_in (Stage stage)) (elements C.units C.by (left_of tree.now.leaves leaf)) }
{
    tree.position_of(leaf, LenView::Stage(stage))
}

/// The leaves that the stage inserted, in order. It goes to those that the stage touched.
pub(crate) fn inserted_leaves<C: Content>(
    tree: &Tree<C>,
    stage: u64,
) -> Result<Vec<NodeId>, OutOfMemory>
    requires { IsTrue tree.now.usable }
    ensures { IfOk result (λ v. v.items ≡ ids (filter (inserted_by leaf_stamps stage) tree.now.leaves)) }
{
    // What holds of the leaves at any time is read off its contract.
    let _first = tree.first_leaf();
    let mut inserted = Vec::new(tree.allocator());
    let touched = tree.stage_leaves(stage)?;
    for leaf in &touched {
        if is_of_stage(&tree.leaf_element(*leaf).ins, stage) {
            inserted.push(*leaf)?;
        }
    }
    Ok(inserted)
}

/// How many elements that the stage before sees stand left of the first one that the stage inserted: None exactly
/// where it inserted none that is there.
pub(crate) fn insertion_position<C: Content>(
    tree: &Tree<C>,
    stage: u64,
) -> Result<Option<u64>, OutOfMemory>
    requires { IsTrue tree.now.usable }
    ensures { IfOk result (λ p. p ≡ insertion_position stage (elements C.units C.by tree.now.leaves)) }
{
    // What holds of the leaves at any time is read off its contract.
    let _first = tree.first_leaf();
    let inserted = inserted_leaves(tree, stage)?;
    match inserted.first() {
        Some(leaf) => Ok(Some(stage_position(tree, *leaf, stage.saturating_sub(1)))),
        None => Ok(None),
    }
}
