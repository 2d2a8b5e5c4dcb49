//! What a change of a tree makes of the elements that are shown of it: where they go in, in which runs they go away, and in
//! which they have other properties; and whether what stands beside it is seen at each stage. It is read off before the tree changes.
#![tactic(auto)]

pub mod annotations;
mod fronts;
pub mod insertions;
pub mod neighbours;
pub mod removals;

pub use annotations::{changed_runs, changed_runs_at_stage};
pub use insertions::place_of_insertion;
pub use neighbours::{passes_beside_place, passes_beside_range};
pub use removals::gone_runs;
