// Filling a figure from a list of fillings: refusals over whole texts, and the filled result.
#![tactic(auto)]

mod classes;
pub mod fill;
pub mod filled;
pub mod glue;
pub mod part;
pub mod whole;
