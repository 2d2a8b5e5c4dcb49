//! Messages, drafts, views, and what a client is.
//!
//! A call that can't return `OutOfMemory` takes no memory; one that can returns it where there is no room.
#![tactic(auto)]

mod contents;
mod copies;
pub mod faults;
pub mod laws;
pub mod messages;
pub mod names;
pub mod reading;
pub mod replica;
pub mod views;
pub mod well_formed;
pub mod writing;

pub use faults::{Cause, EditFault, LinkFault, ProcessFault, SummaryFault, ViewFault};
pub use messages::{Body, Draft, Entry, Message, MsgKind};
pub use names::Names;
pub use reading::{read_draft, read_message};
pub use replica::Replica;
pub use views::{Link, Numbers, Run, Runs, Spot, Spots, View};
pub use well_formed::{is_well_formed_draft, is_well_formed_message};
pub use writing::{write_draft, write_message};
