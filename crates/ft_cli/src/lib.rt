//! The command line of Vemiktag's program: which command its arguments are, the run of that command, and the status with
//! which it ends.
//!
//! The commands stand in `ft_replay`, over any replica; here each runs with clients over trees (`Client` of `ft_client`).
//!
//! Only a call that can return `OutOfMemory` takes memory.
#![tactic(auto)]

mod running;
mod statuses;
mod words;

pub use running::run;
pub use statuses::Status;
