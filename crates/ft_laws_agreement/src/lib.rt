//! The laws of agreement over the definitions, each a clause of a function without code.
#![tactic(auto)]

pub mod agreement;
pub mod reconnecting;
pub mod sequencing;
pub mod starts;
pub mod trimming;
