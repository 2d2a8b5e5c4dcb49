//! Sequenced messages, and drafts of messages that aren't sequenced yet.

use ft_base::Text;
use ft_op::ChannelOp;

/// The kind of a message.
#[derive(Drop)]
pub enum MsgKind {
    /// An operation.
    Op,
    /// A connection joins.
    Join,
    /// A connection leaves.
    Leave,
    /// Nothing but the sender's reference number.
    Noop,
    /// Another kind, by its word, which is none of the four above.
    Other(Text),
}

/// What a message holds.
#[derive(Drop)]
pub enum Body {
    /// Nothing, as every message that isn't an operation.
    Nothing,
    /// An operation on the text or the grid.
    Op(ChannelOp),
    /// An operation for another address, which is neither the text's nor the grid's.
    Elsewhere(Text),
}

/// A sequenced message.
#[derive(Drop)]
pub struct Message {
    /// The name of the connection that sent it, none for one of nobody.
    pub client_id: Option<Text>,
    /// Its sequence number.
    pub seq: u64,
    /// The minimum sequence number at it.
    pub min: u64,
    /// Its number among the messages of its connection, from 1; -1 for a join or a leave.
    pub client_seq: i64,
    /// The sequence number that its sender had processed; -1 for a join or a leave.
    pub ref_seq: i64,
    pub kind: MsgKind,
    pub body: Body,
}

/// A message as a holder of messages keeps it.
#[derive(Drop)]
pub struct Entry {
    pub msg: Message,
    /// The number of the connection that sent it, 0 where it has no name.
    pub origin: u32,
}

/// A message of a client that isn't sequenced yet.
#[derive(Drop)]
pub struct Draft {
    /// Its number among the messages of its connection, from 1.
    pub client_seq: u64,
    /// The sequence number that the client had processed.
    pub ref_seq: u64,
    /// Nothing for a noop.
    pub body: Body,
}
