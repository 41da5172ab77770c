// The normal text of sheets and figures.
#![tactic(auto)]

pub mod normal_text;
pub mod normalise;
