//! What sessions share. Deliveries: a replica processes messages of a log, one after the other, and an offered message
//! is taken as the next of them. And values that are kept under their names, such as clients.
//!
//! A call that can return `OutOfMemory` returns it where there is no room.
#![tactic(auto)]

mod deliveries;
mod kept;

pub use deliveries::{offered_entry, process_all, process_one};
pub use kept::{keep, place_of};
