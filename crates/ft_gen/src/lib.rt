//! The generator of sessions: events drawn from a seed.
//!
//! A call that can't return `OutOfMemory` takes no memory; one that can returns it where there is no room.
#![tactic(auto)]

mod acts;
mod course;
mod draws;
mod edits;
mod exchange;
pub mod generator;
mod kinds;
mod opening;
mod progress;
mod texts;

pub use generator::Generator;
