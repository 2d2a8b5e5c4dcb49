//! A balanced tree of leaves over an arena. Each block keeps how many elements its leaves have, how many
//! of them the local view sees, and in a table how many each perspective sees, so that a place is found
//! by reading a few nodes on each level.
//!
//! A call that can't return `OutOfMemory` takes no memory.
#![tactic(auto)]

pub mod blocks;
mod change;
mod counted;
mod find;
mod grow;
pub mod leaves;
mod order;
mod position;
mod refresh;
mod shrink;
mod summaries;

pub use blocks::{Blocks, Found, OutOfRange};
pub use leaves::{Leaf, LenView};
