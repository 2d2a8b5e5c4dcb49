//! The summary of a document over plain lists, and the document that a summary gives.
//!
//! A call that can't return `OutOfMemory` takes no memory; one that can returns it where there is no room.
#![tactic(auto)]

mod lists;
mod named;
pub mod reading;
mod segments;
mod units;
pub mod writing;

pub use reading::document_of;
pub use writing::summary_of;
