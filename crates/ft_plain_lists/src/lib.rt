//! One list of elements in one `Vec`, removed elements included; intervals and cells over such lists, and
//! what is shown of them.
//!
//! A call that can't return `OutOfMemory` takes no memory; one that can returns it where there is no room.
#![tactic(auto)]

mod cells;
mod changes;
mod copies;
mod element_tests;
mod elements;
mod ends;
mod interval_views;
mod intervals;
mod lists;
mod moved;
mod name_tables;
mod named_lists;
mod names;
mod neighbours;
mod origin_views;
mod runs;
mod scans;
mod shown;
mod shown_grid;
mod slides;
mod tables_of_ends;

pub use cells::PlainCells;
pub use element_tests::{AnnotatedBy, Before, ElementTest, RemovedBy};
pub use elements::{Content, PlainElement, characters};
pub use ends::{elements_at_ends, elements_at_given_ends, ends_fit, given_ends_fit};
pub use interval_views::{end_number, shown_intervals};
pub use intervals::{PlainInterval, PlainIntervals};
pub use lists::{PlainList, stage_position};
pub use names::{ElementName, ElementNames};
pub use origin_views::shown_origins;
pub use runs::{lowered_runs, marked_runs};
pub use scans::{rank, units};
pub use shown::{push_character, shown_markers, shown_runs, shown_text};
pub use shown_grid::{shown_cells, shown_count};
