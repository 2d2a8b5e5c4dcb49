//! Leaves of the merge tree in blocks, with what is kept beside them: for each pending stage the leaves that it
//! touched, so that its acknowledgement and a search for what it has go to these alone; and the references, which
//! stand on leaves, and where these go, from leaf to leaf.
//!
//! A call that can't return `OutOfMemory` takes no memory; one that can returns it where there is no room.
#![tactic(auto)]

mod acks;
mod anchored;
pub mod anchors;
mod finds;
pub mod leaf_blocks;
mod leaf_refs;
mod next_stages;
mod pruning;
mod reads;
pub mod settling;
pub mod slides;
mod stage_leaves;
mod stage_nodes;
mod touched;
mod tracked;

pub use finds::find_leaf;
pub use leaf_blocks::LeafBlocks;
