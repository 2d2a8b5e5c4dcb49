//! What every other crate stands on: lists, texts, stamps and elements, who sees an element, scans
//! of a list of elements, `OutOfMemory`, moves of large values, and a counter of steps.
//!
//! A call that can't return `OutOfMemory` takes no memory; one that can returns it where there is no room.
#![tactic(auto)]

pub mod counting;
pub mod elements;
pub mod lists;
pub mod memory;
pub mod moved;
pub mod scans;
pub mod small_strings;
pub mod stamps;
pub mod texts;
pub mod visibility;

pub use counting::Steps;
pub use elements::{Element, Perspective};
pub use lists::{Datum, List};
pub use memory::OutOfMemory;
pub use small_strings::SmallString;
pub use stamps::{Stamp, Stamps};
pub use texts::Text;
pub use visibility::{seen_at, sees};
