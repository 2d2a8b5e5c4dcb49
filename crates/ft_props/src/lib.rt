//! Properties of elements and intervals, and their changes.
//!
//! A call that can't return `OutOfMemory` takes no memory; one that can returns it where there is no room.
#![tactic(auto)]

mod changed;
pub mod keys;
mod moved;
mod numbers;
pub mod overlay;
pub mod pairs;
pub mod properties;

pub use overlay::Overlay;
pub use pairs::Pairs;
pub use properties::{AdjSet, Adjust, Changes, PropSet, Props};
