//! The shared text: elements in a merge tree, intervals on them, and what is pending on both.
//!
//! Contracts speak of each document, with pending stages, of which a text holds the text's part. After
//! `OutOfMemory` in a call that changes it a text may be used no more.
//!
//! A call that can return `OutOfMemory` returns it where there is no room.
#![tactic(auto)]

mod acks;
mod compaction;
mod edits;
mod effects;
mod moved;
mod neighbours;
pub mod pending;
mod rejoining;
mod shown;
pub mod soundness;
pub mod strings;
mod summaries;
mod telling;

pub use strings::SharedString;
