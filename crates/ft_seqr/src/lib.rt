//! The sequencer, which gives messages their numbers, and the events of a session.
//!
//! A call that can return `OutOfMemory` returns it where there is no room.
#![tactic(auto)]

pub mod answer_texts;
pub mod connections;
pub mod events;
mod faults;
pub mod laws;
mod limits;
pub mod nacks;
pub mod reading;
pub mod refusals;
pub mod same_message;
pub mod sequencer;
pub mod well_formed;
pub mod writing;

pub use answer_texts::{author_texts, origin_run_text, overlap_text};
pub use connections::{conn_of, connection_name, wanted_count};
pub use events::{Event, HowMany};
pub use limits::NAME_LIMIT;
pub use nacks::{LeaveFault, Nack, SubmitFault};
pub use reading::read_event;
pub use refusals::Refusal;
pub use sequencer::Sequencer;
pub use well_formed::is_well_formed_event;
pub use writing::write_event;
