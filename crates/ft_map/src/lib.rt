//! Sessions of clients that share a map of keys and values (`SharedMap`), over one log, which the sequencer orders.
//!
//! A call that can't return `OutOfMemory` takes no memory; one that can returns it where there is no room.
#![tactic(auto)]

pub mod events;
pub mod laws;
pub mod log;
mod members;
pub mod reading;
mod replica;
mod service;
mod summaries;
pub mod world;

pub use events::{MapEvent, MapOut};
pub use ft_shared_map::{MapOp, MapPair, SharedMap};
pub use reading::read_map_event;
pub use world::MapWorld;
