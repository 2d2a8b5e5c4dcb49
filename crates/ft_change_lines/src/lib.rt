//! Changes of a view as lines of text, each a JSON object; and what leads from nothing to a view.
//!
//! A call that can return `OutOfMemory` returns it where there is no room.
#![tactic(auto)]

mod from_nothing;
pub mod laws;
mod members;
mod texts;

pub use from_nothing::told_from_nothing;
pub use texts::changes_text;
