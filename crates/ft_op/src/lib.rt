//! Operations on the text, its intervals and the grid.
//!
//! A call that can't return `OutOfMemory` takes no memory; one that can returns it where there is no room.
#![tactic(auto)]

mod adjustments;
pub mod copies;
pub mod grid_reading;
mod groups;
mod interval_reading;
pub mod laws;
pub mod limits;
pub mod operations;
pub mod reading;
mod segments;
pub mod text_reading;
pub mod well_formed;
pub mod writing;

pub use copies::{copy_insertion, copy_interval_add, copy_interval_change};
pub use grid_reading::read_grid_op;
pub use limits::SPLICE_LIMIT;
pub use operations::{
    BaseOp, BaseOps, CellOp, CellOps, ChannelOp, Ends, GridOp, OpFault, Seg, Target, TextOp,
};
pub use reading::is_object;
pub use text_reading::read_text_op;
pub use well_formed::{is_count, is_null, is_range, is_well_formed};
pub use writing::write_op;
