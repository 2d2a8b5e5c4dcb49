//! A client, written once over any document that keeps its own pending stages.
//!
//! A call that can't return `OutOfMemory` takes no memory; one that can returns it where there is no room.
#![tactic(auto)]

pub mod comparing;
mod connections;
pub mod document;
mod linked;
mod outbox;
mod pending;
pub mod replica;
mod stopping;
pub mod telling;

pub use comparing::{Compared, ComparedIntervals};
pub use document::{OwnDocument, OwnNumbers, Resent};
pub use replica::ReplicaOver;
pub use telling::{TellingDocument, ToldEdit};
