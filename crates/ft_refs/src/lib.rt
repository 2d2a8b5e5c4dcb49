//! Lists of references by owner: each owner has one doubly linked list of references, each with an
//! offset. It knows nothing of what an owner holds. A call that can't return `OutOfMemory` takes no
//! memory.
#![tactic(auto)]

mod links;
pub mod numbers;
pub mod refs;

pub use numbers::{Place, RefId};
pub use refs::Refs;
