//! Indexes of the acknowledged intervals of each label: they are kept beside an operation that takes effect, and find the
//! intervals that meet a range.
//!
//! A call that can't return `OutOfMemory` takes no memory; one that can returns it where there is no room.
#![tactic(auto)]

pub mod gathering;
pub mod indexes;
pub mod listing;
mod places;
