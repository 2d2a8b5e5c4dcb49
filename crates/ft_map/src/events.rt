//! The events of a map session, and what they are answered.

use ft_base::Text;
use ft_json::ValText;
use ft_msg::Numbers;
use ft_seqr::HowMany;
use ft_shared_map::{MapOp, MapPair};

/// What happens in a map session.
#[derive(Drop)]
pub enum MapEvent {
    /// A new client, empty, or from a summary of another one.
    Start { client: Text, from: Option<Text> },
    /// The client gets a connection, which joins.
    Connect { client: Text },
    /// The client loses its connection, and its unsent messages.
    Drop { client: Text },
    /// An edit of the client's own.
    Edit { client: Text, op: MapOp },
    /// So many of the client's oldest unsent messages are submitted.
    Ticket { client: Text, count: HowMany },
    /// The client processes so many of the next messages of the log.
    Deliver { client: Text, count: HowMany },
    /// The client's view is written.
    Show { client: Text },
    /// The client's summary is written.
    Summary { client: Text },
}

/// What an event writes.
#[derive(Drop)]
pub enum MapOut {
    /// Nothing.
    Nothing,
    /// The view of the client of this name, by rising keys. `skipped`, `other` and `made` are 0.
    View {
        name: Text,
        numbers: Numbers,
        pairs: Vec<MapPair>,
    },
    /// A client's summary.
    Summary(ValText),
}
