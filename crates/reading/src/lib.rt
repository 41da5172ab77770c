// Sheets, figures and lists of fillings as they are read: in normal form.
#![tactic(auto)]

mod counts;
pub mod normal;
pub mod part;
pub mod read;
