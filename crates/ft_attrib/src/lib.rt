//! Who inserted what is shown: a list of origins, kept as its maximal pieces.
//!
//! A call that can't return `OutOfMemory` takes no memory; one that can returns it where there is no room.
#![tactic(auto)]

pub mod attribution;
mod pieces;

pub use attribution::{AttrRun, Attribution, Origin, Total};
