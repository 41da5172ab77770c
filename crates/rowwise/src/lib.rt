// Pairs of nets about which nothing has to be searched: equal row by row, or atoms left over.
#![tactic(auto)]

pub mod identical;
pub mod leftover;
