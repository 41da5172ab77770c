// The links and marks of rows, taken into what a text holds.
#![tactic(auto)]

pub mod place;
pub mod take;
