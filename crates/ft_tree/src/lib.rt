//! The merge tree: a list of elements in leaves, with references to elements.
//!
//! A call that can't return `OutOfMemory` takes no memory; one that can returns it where there is no room.
#![tactic(auto)]

pub mod changes;
mod edits;
pub mod endpoints;
pub mod faults;
mod finds;
pub mod insertions;
pub mod moves;
mod ranges;
pub mod tree;
pub mod walks;

pub use faults::TreeFault;
pub use ft_tree_leaves::{
    Content, MAX_RUN, Reference, TextContent, TextPiece, TextRun, TextUnit, TreeLeaf,
};
pub use tree::Tree;
