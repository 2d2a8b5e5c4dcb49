//! Messages with the operations that they tell.

use ft_msg::{Draft, Entry};
use ft_shared_map::MapOp;

/// A client's message that isn't sequenced yet, with its operation.
#[derive(Drop)]
pub struct MapDraft {
    /// The message as the sequencer takes it.
    pub draft: Draft,
    /// What it does to the map.
    pub op: MapOp,
}

/// A message of the log, with its operation.
#[derive(Drop)]
pub struct MapEntry {
    /// The message.
    pub entry: Entry,
    /// What it does to the map: None for a join or a leave.
    pub op: Option<MapOp>,
}
