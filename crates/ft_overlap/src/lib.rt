//! An index of items, each with a start and an end, by where these stand now. It finds the items that meet
//! a range by reading a few nodes for each of them, and it stays right where all starts and ends move, as
//! long as they keep their order.
//!
//! A call that can return `OutOfMemory` returns it where there is no room.
#![tactic(auto)]

mod counted;
mod grow;
pub mod index;
pub mod items;
mod names;
mod places;
mod raise;
mod search;
mod shrink;

pub use index::Index;
pub use items::{Item, Places};
