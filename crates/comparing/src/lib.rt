// Comparing two sheets.
#![tactic(auto)]

pub mod compare;
