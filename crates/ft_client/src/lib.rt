//! A client over trees.
//!
//! A call that can't return `OutOfMemory` takes no memory; one that can returns it where there is no room.
#![tactic(auto)]

mod moved;
mod numbers;
pub mod own;
pub mod stages;

use ft_replica::ReplicaOver;
pub use own::TreeOwn;

/// A client over trees: a merge tree for each of the three lists.
pub type Client = ReplicaOver<TreeOwn>;
