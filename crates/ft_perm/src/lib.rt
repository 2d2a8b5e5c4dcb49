//! Permutation vectors: for each row or column of a table a handle, which stays the same while others come and go.
//!
//! A call that can't return `OutOfMemory` takes no memory.
#![tactic(auto)]

mod free;
pub mod handles;
pub mod vectors;

pub use handles::Handles;
pub use vectors::Vector;
