//! Summary documents: what a client hands to one that starts later.
//!
//! A call that can't return `OutOfMemory` takes no memory; one that can returns it where there is no room.
#![tactic(auto)]

mod chunks;
mod copies;
mod fault_steps;
mod head_reading;
mod item_reading;
mod item_writing;
mod items;
pub mod laws;
mod limits;
pub mod meeting;
mod run_reading;
mod segment_reading;
mod shown_reading;
mod stamp_reading;
mod stamp_tests;
pub mod summary;
pub mod summary_reading;
pub mod valid;
pub mod writing;

pub use limits::{CHUNK_LENGTH, MOST_UNITS};
pub use summary::{
    CellRec, CellRecs, Ends2, IntervalRec, IntervalRecs, Mark, Marks, RunRec, RunRecs, Seg, SegRec,
    SegRecs, SumCause, SumDoc, SumFault, Texts,
};
pub use summary_reading::read_summary;
pub use valid::is_valid;
pub use writing::write_summary;
