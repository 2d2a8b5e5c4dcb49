//! The laws of sessions over the definitions, each a clause of a function without code.
#![tactic(auto)]

pub mod formed;
pub mod worlds;
