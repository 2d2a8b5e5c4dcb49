//! Numbers and places of references.

use ft_arena::{Link, NodeId};
use std::marker::Model;

/// The number of a reference. A reference keeps its number until it is released, and only then may a
/// new one get it. Contracts see the number.
#[derive(Clone, Copy, Drop, PartialEq, Eq)]
pub struct RefId(pub usize);

impl Model for RefId {
    ghost use Rattle.std.specs.Prelude.{ℕ};

    ghost Value = { ℕ };

    ghost view = { λ r. r.0 };

    ghost inverse = { λ n. record { 0 = n } };
}

/// Where an attached reference stands: on which owner, and how far from its start.
#[derive(Clone, Copy, Drop)]
pub struct Place {
    pub owner: NodeId,
    pub offset: u64,
}

// A reference with its links. A detached one has no place.
#[derive(Clone, Copy, Drop)]
pub(crate) struct Slot {
    pub(crate) place: Option<Place>,
    pub(crate) prev: Link,
    pub(crate) next: Link,
}

// The first and the last reference of an owner.
#[derive(Clone, Copy, Drop)]
pub(crate) struct Ends {
    pub(crate) first: Link,
    pub(crate) last: Link,
}
