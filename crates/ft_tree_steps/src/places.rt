//! Leaves in blocks: where a place is, and how many elements are seen.

ghost use Rattle.std.specs.Prelude.{◌≡◌, ◌+◌, ◌*◌, ◌<◌, ◌≤◌, IfErr, IfOk, IsTrue, OnOk};
ghost use Rattle.ft_base.specs.Scan.{len, place};
ghost use Rattle.ft_block.specs.declared.leaves.LenView.TheVariants.{At};
ghost use Rattle.ft_block.specs.Leaves.{IsFromFloor, IsLeafIn, last_stage, left_of};
ghost use Rattle.ft_tree_leaves.specs.Elements.{seen_in};
ghost use Rattle.ft_tree_leaves.specs.LeafLists.{elements};
ghost use Rattle.ft_tree_steps.specs.LeafSteps.{IsInLeaf, held_place};

use ft_arena::NodeId;
use ft_base::{Perspective, Steps};
use ft_block::{Blocks, Found, LenView, OutOfRange};
use ft_tree_leaves::{Content, TreeLeaf};
use std::sync::ledger::Ledger;

/// The place of `p` elements that the local view sees. Each read of a node is one step.
///
/// Returns `OutOfRange` exactly where `p` is above the length of that view.
pub fn find_local<C: Content, G: Ledger>(
    blocks: &Blocks<TreeLeaf<C>>,
    p: u64,
    steps: &mut Steps<G>,
) -> Result<Found, OutOfRange>
    requires { IsTrue blocks.now.usable }
    ensures held { IfOk result (λ found. IsInLeaf C.units blocks.now.leaves found.leaf found.offset) }
    ensures place { let list = elements C.units C.by blocks.now.leaves in
        IfOk result (λ found. held_place C.units C.by blocks.now.leaves found.leaf found.offset ≡ place (seen_in last_stage) p list) }
    ensures inside { OnOk result (p ≤ len (seen_in last_stage) (elements C.units C.by blocks.now.leaves)) }
    ensures length { IfErr result (λ e. e.length ≡ len (seen_in last_stage) (elements C.units C.by blocks.now.leaves)) }
    ensures beyond { IfErr result (λ e. e.length < p) }
    ensures cost { steps.new ≤ steps.old + 9 * (blocks.now.depth + 1) }
{
    // What holds of the leaves at any time is read off its contract.
    let _first = blocks.first();
    match blocks.find_local(p, steps) {
        Ok(found) => Ok(found),
        Err(e) => Err(e),
    }
}

/// The place of `p` elements that the perspective sees. Each read of a node is one step.
///
/// Returns `OutOfRange` exactly where `p` is above the length seen.
pub fn find_seen_at<C: Content, G: Ledger>(
    blocks: &Blocks<TreeLeaf<C>>,
    p: u64,
    at: Perspective,
    steps: &mut Steps<G>,
) -> Result<Found, OutOfRange>
    requires usable { IsTrue blocks.now.usable }
    requires floor { blocks.now.floor ≤ at.r }
    ensures held { IfOk result (λ found. IsInLeaf C.units blocks.now.leaves found.leaf found.offset) }
    ensures place { let list = elements C.units C.by blocks.now.leaves in
        IfOk result (λ found. held_place C.units C.by blocks.now.leaves found.leaf found.offset ≡ place (seen_in (At at)) p list) }
    ensures inside { OnOk result (p ≤ len (seen_in (At at)) (elements C.units C.by blocks.now.leaves)) }
    ensures length { IfErr result (λ e. e.length ≡ len (seen_in (At at)) (elements C.units C.by blocks.now.leaves)) }
    ensures beyond { IfErr result (λ e. e.length < p) }
    ensures cost { steps.new ≤ steps.old + 9 * (blocks.now.depth + 1) }
{
    // What holds of the leaves at any time is read off its contract.
    let _first = blocks.first();
    match blocks.find(p, at, steps) {
        Ok(found) => Ok(found),
        Err(e) => Err(e),
    }
}

/// How many elements the view sees.
pub fn seen_count<C: Content>(blocks: &Blocks<TreeLeaf<C>>, view: LenView) -> u64
    requires usable { IsTrue blocks.now.usable }
    requires floor { IsFromFloor blocks.now.floor view }
    ensures { result ≡ len (seen_in view) (elements C.units C.by blocks.now.leaves) }
{
    blocks.length(view)
}

/// How many elements that the view sees stand left of a leaf.
pub fn seen_left<C: Content>(blocks: &Blocks<TreeLeaf<C>>, leaf: NodeId, view: LenView) -> u64
    requires usable { IsTrue blocks.now.usable }
    requires floor { IsFromFloor blocks.now.floor view }
    requires live { IsLeafIn blocks.now.leaves leaf }
    ensures { result ≡ len (seen_in view) (elements C.units C.by (left_of blocks.now.leaves leaf)) }
{
    blocks.position_of(leaf, view)
}
