//! A document over plain lists: what messages and a client's own edits make of it.
//!
//! A call that can't return `OutOfMemory` takes no memory; one that can returns it where there is no room.
#![tactic(auto)]

mod documents;
mod moved;
mod renamings;
mod stages;

pub use documents::PlainDocument;
pub use documents::building::{DocumentNumbers, GridParts, TextParts};
pub use documents::held::Held;
pub use documents::own_edits::NotTaken;
pub use renamings::Renaming;
pub use stages::{PlainStage, PlainStages, SubOp, renamed_stages};
