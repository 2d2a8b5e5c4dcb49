//! A map of keys and values that several clients change, as one of them holds it.
//!
//! A call that can't return `OutOfMemory` takes no memory; one that can returns it where there is no room.
#![tactic(auto)]

mod marks;
mod ops;
mod shared;

pub use ops::{MapOp, MapPair};
pub use shared::SharedMap;
