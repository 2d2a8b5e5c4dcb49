//! A tree of text: what it holds and shows, and how elements come into it.
//!
//! Nothing here knows of intervals, or of the operations that are pending.
//!
//! A call that can't return `OutOfMemory` takes no memory; one that can returns it where there is no room.
#![tactic(auto)]

pub mod contents;
pub mod lengths;
pub mod moved;
pub mod segments;
pub mod shown;
