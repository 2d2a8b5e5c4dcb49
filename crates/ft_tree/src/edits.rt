//! Leaves in blocks: how a leaf comes to their end, and what is left of one that was taken out.

ghost use Rattle.std.specs.Prelude.{◌≡◌, ◌+◌, ◌++◌, ◌<◌, ◌^◌, [], IsTrue, OnOk, true, length};
ghost use Rattle.ft_block.specs.Leaves.{ids};
ghost use Rattle.ft_tree_leaves.specs.Elements.{elements_with};
ghost use Rattle.ft_tree_leaves.specs.LeafLists.{Extends, elements};
ghost use Rattle.ft_tree_leaves.specs.References.{KeepsReferences};

use crate::finds::find_end;
use ft_base::{Datum, Element, OutOfMemory};
use ft_props::{Overlay, Props};
use ft_tree_blocks::LeafBlocks;
use ft_tree_leaves::{Content, TreeLeaf};
use ft_tree_steps::cut_at;
use std::alloc::Global;
use std::marker::Brand;
use std::sync::ledger::Blank;

/// The content of a leaf that was taken out.
pub(crate) fn content_of<C: Content + Drop>(leaf: TreeLeaf<C>) -> C
    ensures { result ≡ leaf.content }
{
    leaf.content
}

/// Puts a leaf of elements with these stamps and acknowledged properties at the end.
pub(crate) fn append<C: Content + Drop>(
    blocks: &mut LeafBlocks<C>,
    alloc: Global,
    content: C,
    props: &Props,
    e: Element,
) -> Result<(), OutOfMemory>
    requires usable { IsTrue blocks.old.usable }
    requires fits { length (elements C.units C.by blocks.old.leaves) + length (C.units content) < 2 ^ 64 }
    ensures list { let added = elements_with e (C.by content) (record { acked = props.now; pending = [] }) (C.units content) in
        OnOk result (elements C.units C.by blocks.new.leaves ≡ elements C.units C.by blocks.old.leaves ++ added) }
    ensures refs { OnOk result (KeepsReferences blocks.old.refs blocks.new.refs) }
    ensures nodes { OnOk result (Extends (ids blocks.old.leaves) (ids blocks.new.leaves)) }
    ensures usable { OnOk result (blocks.new.usable ≡ true) }
    ensures floor { blocks.new.floor ≡ blocks.old.floor }
{
    let overlay = Overlay::of(alloc, props.copy()?);
    let leaf = TreeLeaf {
        content,
        stamps: e,
        overlay,
    };
    let end = find_end::<C, Brand>(blocks.list(), Blank::new(1));
    let at = cut_at(blocks, &end)?;
    // What holds of the leaves at any time is read off its contract.
    let _first = blocks.first();
    let _id = blocks.insert_after(at, leaf)?;
    Ok(())
}
