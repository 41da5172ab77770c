// What placed atoms and marks decide of a figure's links, the kinds of the links that they leave open, and where those
// cannot go.
#![tactic(auto)]

pub mod bars;
pub mod decided;
pub mod kinds;
pub mod links;
mod marks;
pub mod opening;
pub mod several;
pub mod taken;
mod words;
