//! The cells of a table by pairs of handles, of a row and of a column.
//!
//! A call that can't return `OutOfMemory` takes no memory; one that can returns it where there is no room.
#![tactic(auto)]

pub mod cells;
mod crossings;
mod values;

pub use cells::{CellKey, Cells};
