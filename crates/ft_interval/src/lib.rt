//! Interval collections over the text of a tree: intervals by label and id, whose ends stay with their elements, with an index of
//! those of each label, which finds the ones that meet a range.
//!
//! A call that can't return `OutOfMemory` takes no memory; one that can returns it where there is no room.
#![tactic(auto)]

pub mod collections;

pub use collections::Collections;
