//! Compaction of a tree: what was removed at or below its floor is taken out, and leaves that nobody can
//! tell apart are joined.
//!
//! A call that can return `OutOfMemory` returns it where there is no room.
#![tactic(auto)]

pub mod compaction;
mod removals;
mod sweeps;

pub use compaction::{scour, scour_all};
