// Checking what somebody says a figure can be filled with.
#![tactic(auto)]

pub mod claim;
