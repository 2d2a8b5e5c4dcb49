//! A client that forgets old tombstones is as good as one that never does, each law a clause of a
//! function without code.
#![tactic(auto)]

pub mod compaction;
pub mod numbers;
pub mod steps;
