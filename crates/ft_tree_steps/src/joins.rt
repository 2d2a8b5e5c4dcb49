//! Leaves in blocks: how two of them are joined, and where a sweep begins then.

ghost use Rattle.std.specs.Prelude.{[], ◌≡◌, ◌↔◌, if◌then◌else◌, IfOk, IsSomeAnd, IsTrue, OnOk, true};
ghost use Rattle.ft_base.specs.declared.stamps.Stamp.TheVariants.{Acked};
ghost use Rattle.ft_block.specs.Leaves.{IsLeafIn, change_leaf, join_leaf, value_at};
ghost use Rattle.ft_tree_leaves.specs.Edits.{MayJoinNext, joined_leaf, sweep_joined, sweep_without};
ghost use Rattle.ft_tree_leaves.specs.References.{KeepsReferences};

use ft_arena::NodeId;
use ft_base::{OutOfMemory, Stamp};
use ft_block::Blocks;
use ft_tree_blocks::LeafBlocks;
use ft_tree_leaves::block_leaf::universal;
use ft_tree_leaves::{Content, TreeLeaf};
use std::alloc::Global;

// Whether the insertion is the one that everybody sees.
fn is_universal(stamp: &Stamp) -> bool
    ensures only { result ≡ true → stamp.now ≡ Acked 0 0 }
    ensures told { stamp.now ≡ Acked 0 0 → result ≡ true }
{
    matches!(stamp, Stamp::Acked { seq: 0, conn: 0 })
}

// Makes the insertion of a leaf that nobody has removed the one that everybody sees. Where it is that already, nothing is
// written.
fn make_universal<C: Content>(
    blocks: &mut LeafBlocks<C>,
    alloc: Global,
    id: NodeId,
) -> Result<(), OutOfMemory>
    requires usable { IsTrue blocks.old.usable }
    requires live { IsSomeAnd (value_at blocks.old.leaves id) (λ v. v.stamps.dels ≡ []) }
    ensures ok { OnOk result (blocks.new.leaves ≡ change_leaf (λ v. record v { stamps = record { ins = Acked 0 0; dels = [] } }) blocks.old.leaves id) }
    ensures refs { OnOk result (KeepsReferences blocks.old.refs blocks.new.refs) }
    ensures usable { OnOk result (blocks.new.usable ≡ true) }
    ensures floor { blocks.new.floor ≡ blocks.old.floor }
{
    // What holds of the leaves at any time is read off its contract.
    let _first = blocks.first();
    if is_universal(&blocks.leaf(id).stamps.ins) {
        return Ok(());
    }
    blocks.set_stamps(id, universal(alloc))
}

/// Joins the leaf after that of a node to it, if the two may be joined at the floor. Tells whether they may.
pub fn join_at<C: Content + Drop>(
    blocks: &mut LeafBlocks<C>,
    alloc: Global,
    id: NodeId,
    floor: u64,
) -> Result<bool, OutOfMemory>
    requires usable { IsTrue blocks.old.usable }
    requires live { IsLeafIn blocks.old.leaves id }
    ensures answer { IfOk result (λ joined. IsTrue joined ↔ MayJoinNext C.joins floor blocks.old.leaves id) }
    ensures leaves { IfOk result (λ joined. blocks.new.leaves ≡ (if joined then join_leaf (joined_leaf C.joined) blocks.old.leaves id else blocks.old.leaves)) }
    ensures refs { OnOk result (KeepsReferences blocks.old.refs blocks.new.refs) }
    ensures usable { OnOk result (blocks.new.usable ≡ true) }
    ensures floor { blocks.new.floor ≡ blocks.old.floor }
{
    // What holds of the leaves at any time is read off its contract.
    let _first = blocks.first();
    let Some(next) = blocks.next(id) else {
        return Ok(false);
    };
    if !blocks.leaf(id).may_join(blocks.leaf(next), floor) {
        return Ok(false);
    }
    make_universal(blocks, alloc, id)?;
    make_universal(blocks, alloc, next)?;
    blocks.join_next(id)?;
    Ok(true)
}

/// Where the next sweep begins after the leaf of a node is gone, where `sweep` is the place before.
pub fn sweep_without<C: Content>(
    blocks: &Blocks<TreeLeaf<C>>,
    id: NodeId,
    sweep: Option<NodeId>,
) -> Option<NodeId>
    requires usable { IsTrue blocks.now.usable }
    requires live { IsLeafIn blocks.now.leaves id }
    ensures { result ≡ sweep_without blocks.now.leaves id sweep }
{
    let Some(s) = sweep else {
        return None;
    };
    if s.0 == id.0 {
        return blocks.next(id);
    }
    Some(s)
}

/// The same after the leaf behind that of a node is gone.
pub fn sweep_joined<C: Content>(
    blocks: &Blocks<TreeLeaf<C>>,
    id: NodeId,
    sweep: Option<NodeId>,
) -> Option<NodeId>
    requires usable { IsTrue blocks.now.usable }
    requires live { IsLeafIn blocks.now.leaves id }
    ensures { result ≡ sweep_joined blocks.now.leaves id sweep }
{
    match blocks.next(id) {
        Some(next) => sweep_without(blocks, next, sweep),
        None => sweep,
    }
}
