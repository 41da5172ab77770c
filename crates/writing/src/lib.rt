// Rows of 34 bytes: how one is written.
#![tactic(auto)]

pub mod write;
