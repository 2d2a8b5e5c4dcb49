//! The shared table: rows and columns as vectors of handles, cells by the handles of their row and column, and what is pending
//! on them. The handle of a row or a column stays the same while others come and go, so a cell goes with its units.
//!
//! A call that can't return `OutOfMemory` takes no memory; one that can returns it where there is no room.
#![tactic(auto)]

mod acknowledgements;
mod compaction;
mod grid;
pub mod matrix;
mod messages;
mod moved;
mod own_edits;
mod reconnection;
mod saved;
mod seen;
pub mod soundness;
mod splices;
mod stages;
mod summaries;
mod telling;
mod views;

pub use matrix::SharedMatrix;
