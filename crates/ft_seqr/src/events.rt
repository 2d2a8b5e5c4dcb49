//! The events of a session.

use ft_base::Text;
use ft_op::ChannelOp;

/// How many messages.
#[derive(Clone, Copy, Debug, PartialEq, Eq)]
pub enum HowMany {
    /// So many.
    Num(u64),
    /// All there are, even none.
    All,
}

/// What happens in a session.
#[derive(Drop)]
pub enum Event {
    /// A new client, empty, or from a summary of another one.
    Start {
        client: Text,
        from: Option<Text>,
    },
    /// The client gets a connection, which joins.
    Connect {
        client: Text,
    },
    /// The client loses its connection, and its unsent messages.
    Drop {
        client: Text,
    },
    /// An edit of the client's own.
    Edit {
        client: Text,
        op: ChannelOp,
    },
    /// So many of the client's oldest unsent messages are submitted.
    Ticket {
        client: Text,
        count: HowMany,
    },
    /// The client processes so many of the next messages of the log.
    Deliver {
        client: Text,
        count: HowMany,
    },
    /// The client queues a noop.
    Noop {
        client: Text,
    },
    /// The client's view is written.
    Show {
        client: Text,
    },
    /// The client's unsent messages are written.
    Queue {
        client: Text,
    },
    /// The client lets go of what no message can refer to.
    Compact {
        client: Text,
    },
    /// The client's summary is written.
    Summary {
        client: Text,
    },
    /// The client processes the message of this text.
    Offer {
        client: Text,
        message: Text,
    },
    /// The messages of the log are written.
    History,
    /// A new name without a client, with a connection, which joins.
    Guest {
        guest: Text,
    },
    /// The draft of this text is submitted for the guest.
    Submit {
        guest: Text,
        message: Text,
    },
    /// The guest's connection leaves.
    Part {
        guest: Text,
    },
    /// The client's intervals of a label that meet a range are written.
    Overlap {
        client: Text,
        label: Text,
        start: u64,
        end: u64,
    },
    /// Who inserted the visible elements of a range is written.
    Blame {
        client: Text,
        start: u64,
        end: u64,
    },
    /// How many visible elements each connection inserted is written.
    Authors {
        client: Text,
    },
}
