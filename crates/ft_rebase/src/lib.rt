//! What a client does with its merge trees when it comes back under a new connection: each pending stage is sent again
//! as pieces whose positions are those of now, and the pending leaves move to where the order will put them.
//!
//! A call asks the tree for the leaves of which a stage has something, and for the place of each, which passes the pending
//! leaves left of it. None walks along all leaves.
//!
//! A call that can't return `OutOfMemory` takes no memory; one that can returns it where there is no room.
#![tactic(auto)]

mod marks;
mod moves;
mod normalisation;
pub mod pieces;
pub mod positions;
mod runs;

pub use normalisation::normalise;
pub use pieces::{Piece, regenerate};
pub use positions::stage_position;
