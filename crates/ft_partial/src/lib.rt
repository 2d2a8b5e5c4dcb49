//! Partial lengths: how many elements each perspective sees of a list, without looking at the list.
//!
//! A `Table` stands for lists of items, each the stamps of some elements with their number. It keeps
//! no items, only how many elements all see in the end, and what those count besides who haven't seen
//! a sequence number yet.
//!
//! A call that can't return `OutOfMemory` takes no memory; one that can returns it where there is no room.
#![tactic(auto)]

mod changes;
mod entries;
mod entry_list;
mod items;
mod lifespans;
mod stages;
mod table;

pub use changes::Change;
pub use lifespans::Lifespan;
pub use stages::Stages;
pub use table::{Table, same_by_stamps};
