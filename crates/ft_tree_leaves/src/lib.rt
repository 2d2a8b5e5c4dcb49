//! The leaves of the merge tree: what a leaf holds.
//!
//! A call that can't return `OutOfMemory` takes no memory; one that can returns it where there is no room.
#![tactic(auto)]

mod authors;
pub mod block_leaf;
mod characters;
pub mod content;
pub mod leaves;
mod long_text;
pub mod references;
pub mod stamps;
pub mod text;
pub mod text_runs;

pub use block_leaf::LeafChange;
pub use content::Content;
pub use leaves::TreeLeaf;
pub use references::Reference;
pub use text::{TextContent, TextPiece, TextUnit};
pub use text_runs::{MAX_RUN, TextRun};
