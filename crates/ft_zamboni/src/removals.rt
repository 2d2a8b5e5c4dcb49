//! A compaction of all leaves, which goes from one with a sequenced removal to the next.

ghost use Rattle.std.specs.Prelude.{◌≡◌, ℕ, ◌<◌, ◌≤◌, ◌^◌, All, IsTrue, OnOk, length};
ghost use Rattle.ft_block.specs.Leaves.{times_leaf};
ghost use Rattle.ft_tree_leaves.specs.LeafLists.{elements};
ghost use Rattle.ft_zamboni.specs.Collections.{CollectsAll, length_kept, next_removed};
ghost use Rattle.ft_zamboni.specs.Scours.{AreClear};

use crate::sweeps::look_at;
use ft_arena::NodeId;
use ft_base::OutOfMemory;
use ft_tree::{Content, Tree};

// The first leaf with a sequenced removal behind those that have `passed` elements with one: None exactly where no more
// have one.
fn next_removed<C: Content>(tree: &Tree<C>, passed: u64) -> Option<NodeId>
    requires usable { IsTrue tree.now.usable }
    requires within { passed ≤ length (elements C.units C.by tree.now.leaves) }
    ensures value { result ≡ next_removed C.units passed tree.now.leaves }

    // What holds of the leaves at any time.
    ensures once { (id : ℕ) → times_leaf tree.now.leaves id ≤ 1 }
    ensures some { All (λ x. 1 ≤ length (C.units x.1.content)) tree.now.leaves }
    ensures few { length (elements C.units C.by tree.now.leaves) < 2 ^ 64 }
{
    // How few elements there are is read off its contract.
    let _made = tree.made();
    let _first = tree.first_leaf();
    match tree.find_removed(passed + 1) {
        Some(found) => found.leaf,
        None => None,
    }
}

// How many elements of a leaf are to be passed: all, if it was kept.
fn length_kept(kept: &Option<NodeId>, len: u64) -> u64
    ensures { result ≡ length_kept kept.now len }
{
    match kept {
        Some(_) => len,
        None => 0,
    }
}

/// Looks at all leaves with a sequenced removal in order, and takes those out that were removed at or below the floor.
///
/// Returns `OutOfMemory` where there is no room for what is kept, and then the tree may be used no more.
pub(crate) fn collect<C: Content + Drop>(
    tree: &mut Tree<C>,
    taken: &mut Vec<C>,
) -> Result<(), OutOfMemory>
    requires usable { IsTrue tree.old.usable }
    requires clear { AreClear tree.old.floor (elements C.units C.by tree.old.leaves) tree.old.refs }
    ensures { OnOk result (CollectsAll C.units C.by tree.old tree.new taken.old.items taken.new.items) }
{
    let mut passed = 0;
    'leaves: while let Some(id) = next_removed(tree, passed) {
        let len = tree.leaf_len(id);
        let kept = look_at(tree, id, None, taken)?;
        passed += length_kept(&kept, len);
    }
    tree.set_sweep(None);
    Ok(())
}
