//! The replicas of a session.

use ft_base::Text;
use ft_msg::Replica;
use std::marker::Model;

/// A replica of a session.
#[derive(Drop)]
pub(crate) struct Member<R: Replica> {
    pub(crate) name: Text,
    pub(crate) replica: R,
    /// How often it connected.
    pub(crate) connects: u64,
}

impl<R: Replica> Model for Member<R> {
    ghost use Rattle.ft_session.specs.Worlds.{MemberState};

    ghost Value = { MemberState };

    ghost view = { λ m. record { name = m.name; replica = R.state m.replica; connects = m.connects } };
}
