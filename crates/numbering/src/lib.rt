// Numbers for the link classes of a sheet, by first appearance, and its marks in order: the steps of a normal form.
#![tactic(auto)]

pub mod classes;
pub mod labels;
pub mod marks;
pub mod numbered;
