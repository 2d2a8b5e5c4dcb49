//! What changed in a view: what a client is told of a step, so that an editor needn't ask for all of it.
#![tactic(auto)]

pub mod changes;
mod items;
pub mod laws;
pub mod listeners;
pub mod named;
pub mod rest;
pub mod runs;
pub mod telling;

pub use changes::{ViewChange, ViewChanges};
pub use items::ShownItem;
pub use listeners::Listener;
pub use rest::{ShownRest, add_rest};
pub use runs::{StyledRun, TakenRun};
pub use telling::Telling;
