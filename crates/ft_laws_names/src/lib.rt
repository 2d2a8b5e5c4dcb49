//! A client's steps depend on the names of its elements only up to renaming, each law a clause of a
//! function without code.
#![tactic(auto)]

pub mod grids;
pub mod naming;
