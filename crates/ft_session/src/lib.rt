//! Sessions: worlds of clients and guests over one sequencer, and what their events write.
//!
//! A call that can return `OutOfMemory` returns it where there is no room.
#![tactic(auto)]

mod acts;
mod asked;
mod counts;
mod deliveries;
mod edits;
mod entrances;
mod guests;
mod laws;
mod links;
mod loads;
mod members;
pub mod outputs;
mod service;
mod session;
pub mod world;

pub use ft_seqr::{Event, HowMany, Refusal, read_event, write_event};
pub use loads::{body_load, op_load};
pub use outputs::{Counts, Out, Values};
pub use world::World;
