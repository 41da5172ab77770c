// Putting a replacement where a pattern was found.
#![tactic(auto)]

mod given;
pub mod swap;
