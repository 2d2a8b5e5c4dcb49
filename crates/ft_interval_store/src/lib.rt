//! Intervals over the text of a tree, by label and id, and the operations that are pending on them. Their ends stay with their
//! elements.
//!
//! A call that can't return `OutOfMemory` takes no memory; one that can returns it where there is no room.
#![tactic(auto)]

mod all;
mod effects;
mod ends;
pub mod faults;
pub mod intervals;
mod named;
mod numbers;
mod pages;
mod pending;
mod search;
mod shown;
pub mod standing;
pub mod store;

pub use faults::IntervalFault;
pub use store::Store;
