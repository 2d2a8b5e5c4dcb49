//! The laws of summaries, over the model alone, each a clause of a function without code.
#![tactic(auto)]

pub mod summaries;
