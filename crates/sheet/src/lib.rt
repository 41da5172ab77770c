// Sheets, figures and lists of fillings: which rows each may have, and the parts of a list.
#![tactic(auto)]

pub mod answer;
pub mod judge;
pub mod kind;
pub mod part;
