//! What is read of leaves in blocks. The contracts are those of `Blocks`, said once for the leaves of the merge tree, so that
//! the proofs of those who read needn't go from these to what blocks ask of leaves each time.

ghost use Rattle.std.specs.Prelude.{◌≡◌, ◌+◌, ◌<◌, ◌^◌, ℕ, ◌≤◌, All, IsTrue, MatchOption, Some, length};
ghost use Rattle.ft_arena.specs.Ids.{after, first};
ghost use Rattle.ft_block.specs.Leaves.{IsLeafIn, ids, length_by, times_leaf, value_at};

use ft_arena::NodeId;
use ft_block::Blocks;
use ft_tree_leaves::{Content, TreeLeaf};

/// The first leaf: None exactly where there is no leaf.
pub(crate) fn first<C: Content>(blocks: &Blocks<TreeLeaf<C>>) -> Option<NodeId>
    requires { IsTrue blocks.now.usable }
    ensures value { result ≡ first (ids blocks.now.leaves) }

    // What holds of the leaves at any time.
    ensures once { (id : ℕ) → times_leaf blocks.now.leaves id ≤ 1 }
    ensures some { All (λ x. 1 ≤ length (C.units x.1.content)) blocks.now.leaves }
    ensures few { length_by (λ x. length (C.units x.content)) blocks.now.leaves < 2 ^ 64 }
    ensures depth { 4 ^ blocks.now.depth ≤ length blocks.now.leaves + 1 }
{
    blocks.first()
}

/// The leaf after this one: None exactly where it is the last.
pub(crate) fn next<C: Content>(blocks: &Blocks<TreeLeaf<C>>, id: NodeId) -> Option<NodeId>
    requires usable { IsTrue blocks.now.usable }
    requires live { IsLeafIn blocks.now.leaves id }
    ensures { result ≡ after (ids blocks.now.leaves) id }
{
    blocks.next(id)
}

/// The leaf before this one: None exactly where it is the first.
pub(crate) fn prev<C: Content>(blocks: &Blocks<TreeLeaf<C>>, id: NodeId) -> Option<NodeId>
    requires usable { IsTrue blocks.now.usable }
    requires live { IsLeafIn blocks.now.leaves id }
    ensures { MatchOption result (first (ids blocks.now.leaves) ≡ Some id) (λ p. after (ids blocks.now.leaves) p ≡ Some id) }
{
    blocks.prev(id)
}

/// The value of a leaf.
pub(crate) fn leaf<C: Content>(blocks: &Blocks<TreeLeaf<C>>, id: NodeId) -> &TreeLeaf<C>
    requires usable { IsTrue blocks.now.usable }
    requires live { IsLeafIn blocks.now.leaves id }
    ensures { value_at blocks.now.leaves id ≡ Some result.now }
{
    blocks.leaf(id)
}
