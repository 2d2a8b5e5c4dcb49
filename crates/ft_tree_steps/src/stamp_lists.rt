//! Leaves in blocks: the stamps of all their elements.

ghost use Rattle.std.specs.Prelude.{◌≡◌, ◌++◌, IfOk, IsTrue, OnOk, map, replicate};
ghost use Rattle.ft_tree_leaves.specs.LeafLists.{elements};

use ft_base::{Datum, Element, OutOfMemory};
use ft_block::Blocks;
use ft_tree_leaves::{Content, TreeLeaf};
use std::alloc::Global;

// Adds copies of the stamps at the end.
fn push_copies(items: &mut Vec<Element>, e: &Element, n: u64) -> Result<(), OutOfMemory>
    ensures { OnOk result (items.new.items ≡ items.old.items ++ replicate n e.now) }
{
    for _i in 0..n {
        items.push(e.copy()?)?;
    }
    Ok(())
}

/// The stamps of the elements in order.
pub fn all_stamps<C: Content>(
    alloc: Global,
    blocks: &Blocks<TreeLeaf<C>>,
) -> Result<Vec<Element>, OutOfMemory>
    requires { IsTrue blocks.now.usable }
    ensures { IfOk result (λ v. v.items ≡ map (λ e. e.stamps) (elements C.units C.by blocks.now.leaves)) }
{
    // What holds of the leaves at any time is read off its contract.
    let _first = blocks.first();
    let mut items = Vec::new(alloc);
    let mut at = blocks.first();
    while let Some(id) = at {
        let leaf = blocks.leaf(id);
        push_copies(&mut items, &leaf.stamps, leaf.content.len())?;
        at = blocks.next(id);
    }
    Ok(items)
}
