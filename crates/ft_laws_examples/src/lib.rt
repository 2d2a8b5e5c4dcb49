//! Worked examples of the model, computed by its definitions.
#![tactic(auto)]

pub mod reports;
pub mod rows;
