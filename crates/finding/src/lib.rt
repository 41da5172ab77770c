// Finding a pattern in a sheet, and its fillings.
#![tactic(auto)]

pub mod place;
