//! What an editor shows, kept by the changes that a client tells.
//!
//! A call that can return `OutOfMemory` returns it where there is no room.
#![tactic(auto)]

mod applying;
mod cuts;
mod elements;
mod rising;
mod shown;

pub use elements::StyledElement;
pub use shown::Shown;
