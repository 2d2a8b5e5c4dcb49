//! A client over plain lists.
//!
//! A call that can't return `OutOfMemory` takes no memory; one that can returns it where there is no room.
#![tactic(auto)]

pub mod own;
mod resent;

use ft_replica::ReplicaOver;
pub use own::PlainOwn;

/// A client over plain lists, one `Vec` a list, removed elements included.
pub type Plain = ReplicaOver<PlainOwn>;
