//! An arena of tree nodes by number: leaves in one list, and blocks with at most eight children
//! each. It knows nothing of what a tree is for, nor of its shape.
//!
//! A call that can't return `OutOfMemory` takes no memory.
#![tactic(auto)]

pub mod arena;
mod links;
pub mod nodes;
pub mod numbers;
pub mod slots;

pub use arena::Arena;
pub use nodes::Node;
pub use numbers::{Kids, Link, NodeId};
pub use slots::{MOST_SLOTS, Slots};
