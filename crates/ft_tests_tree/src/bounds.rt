//! A bound on reads, in numbers, and leaves for which it is asked.

ghost use Rattle.std.specs.Prelude.{◌≡◌, ◌+◌, ◌≤◌, ◌<◌, length, IsTrue, IfOk, OnOk};
ghost use Rattle.ft_block.specs.Leaves.{IsLeafIn, IsPlaceIn};

use crate::faults::StepFault;
use crate::sights::push_count;
use ft_arena::NodeId;
use ft_base::{Element, Stamp, Stamps, Steps};
use ft_block::{Blocks, Found, Leaf, LenView, OutOfRange};
use ft_props::{Overlay, Props};
use ft_tree::TextContent;
use ft_tree_leaves::TreeLeaf;
use std::alloc::Global;
use std::marker::Brand;
use std::sync::ledger::{Blank, Ledger};

// The most elements of the blocks.
const MOST: u64 = 1_000_000;

/// Finds the 5000th element that the client sees, where there are ten thousand leaves: it reads at most 63 nodes.
///
/// Returns `OutOfRange` where the client sees fewer.
pub fn find_5000<L: Leaf, G: Ledger>(
    blocks: &Blocks<L>,
    steps: &mut Steps<G>,
) -> Result<Found, OutOfRange>
    requires usable { IsTrue blocks.now.usable }
    requires many { length blocks.now.leaves ≡ 10000 }
    ensures { steps.new ≤ steps.old + 63 }
{
    blocks.find_local(5000, steps)
}

// A leaf of one marker that the client put in at stage 1.
fn marker(alloc: Global) -> TreeLeaf<TextContent> {
    TreeLeaf {
        stamps: Element {
            ins: Stamp::Local { stage: 1 },
            dels: Stamps::new(alloc),
        },
        content: TextContent::marker(7),
        overlay: Overlay::of(alloc, Props::new(alloc)),
    }
}

// Puts a leaf in directly after the given one, or first where none is given.
//
// Returns `TooLarge` where there are too many elements.
fn put_behind<L: Leaf + Drop>(
    blocks: &mut Blocks<L>,
    at: Option<NodeId>,
    leaf: L,
) -> Result<NodeId, StepFault>
    requires usable { IsTrue blocks.old.usable }
    requires place { IsPlaceIn blocks.old.leaves at }
    ensures usable { OnOk result (IsTrue blocks.new.usable) }
    ensures place { IfOk result (λ id. IsLeafIn blocks.new.leaves id) }
    ensures more { OnOk result (length blocks.new.leaves ≡ length blocks.old.leaves + 1) }
{
    // That each node stands once is read off its contract.
    let _first = blocks.first();
    let count = blocks.length(LenView::All);
    let more = leaf.len();
    if count > MOST || more > MOST {
        return Err(StepFault::TooLarge);
    }
    Ok(blocks.insert_after(at, leaf)?)
}

// Ten thousand leaves of one element each, put in one after another at the end.
fn ten_thousand(alloc: Global) -> Result<Blocks<TreeLeaf<TextContent>>, StepFault>
    ensures usable { IfOk result (λ blocks. IsTrue blocks.usable) }
    ensures many { IfOk result (λ blocks. length blocks.leaves ≡ 10000) }
{
    let mut blocks = Blocks::new(alloc);
    let mut last = None;
    for _i in 0..10_000u64 {
        last = Some(put_behind(&mut blocks, last, marker(alloc))?);
    }
    Ok(blocks)
}

// Adds how many elements stand left of the leaf that holds the 5000th one.
fn push_found<L: Leaf, G: Ledger>(
    blocks: &Blocks<L>,
    blank: Blank,
    out: &mut String,
) -> Result<(), StepFault>
    requires usable { IsTrue blocks.now.usable }
    requires many { length blocks.now.leaves ≡ 10000 }
    requires name { blank.name ≡ G.name }
    requires parts { blank.parts ≡ G.parts }
    requires some { 0 < blank.parts }
{
    let mut steps = Steps::<G>::new(blank);
    let Ok(found) = find_5000(blocks, &mut steps) else {
        return Err(StepFault::OutOfRange);
    };
    push_count("offset", found.offset, out)?;
    Ok(())
}

/// Adds where the 5000th of ten thousand elements was found, each a leaf: how many elements of that leaf stand up to it.
///
/// Returns `OutOfMemory` where there is no room for them.
pub(crate) fn push_bound(alloc: Global, out: &mut String) -> Result<(), StepFault> {
    let blocks = ten_thousand(alloc)?;
    push_found::<TreeLeaf<TextContent>, Brand>(&blocks, Blank::new(1), out)
}
