// Colours: numbers of atoms and links that a good placing without contexts keeps, so that sheets which differ are mostly
// told apart without a search.
#![tactic(auto)]

mod atom;
pub mod colour;
mod mix;
mod pieces;
mod round;
mod sets;
