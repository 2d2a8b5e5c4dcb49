//! The marks of a summary: numbers of sequenced stamps, and which of its elements are joined.
//!
//! A call that can't return `OutOfMemory` takes no memory; one that can returns it where there is no room.
#![tactic(auto)]

mod marks;

pub use marks::{
    author_of, element_of, insertion_of, is_collectable, mark_of, marks_of, same_mark, same_props,
    same_stamps, stamp_of, stamps_of,
};
