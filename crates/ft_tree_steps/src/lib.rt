//! Steps over the leaves of the merge tree in blocks: how they are cut at a place, get a leaf there, and are
//! changed over a range, by reading a few blocks to find the place and then only the leaves of the range; and
//! where a place is among them.
//!
//! A call that can't return `OutOfMemory` takes no memory; one that can returns it where there is no room.
#![tactic(auto)]

mod cuts;
mod edits;
mod finds;
mod joins;
mod offsets;
mod places;
mod ranges;
mod scans;
mod stamp_lists;
mod unmarks;

pub use cuts::{cut_at, insert_at};
pub use edits::move_at;
pub use finds::find_removed_leaf;
pub use joins::{join_at, sweep_joined, sweep_without};
pub use offsets::{elements_before, is_before, seen_before_on, seen_offset};
pub use places::{find_local, find_seen_at, seen_count, seen_left};
pub use ranges::{RangeEdit, edit_behind};
pub use scans::settled_number;
pub use stamp_lists::all_stamps;
pub use unmarks::{unmark_all_at, unmark_at};
