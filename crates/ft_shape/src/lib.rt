//! The shape of a balanced tree over an arena: four to eight children a block but at the root, all
//! leaves at one depth. It knows nothing of what a block keeps of the leaves below it.
//!
//! No call takes memory.
#![tactic(auto)]

pub mod children;
pub mod headed;
pub mod pairs;

pub use children::{child_at, child_place, count_of, height_at, move_half, put_in_half};
pub use headed::Headed;
pub use pairs::{drop_root, regroup};
