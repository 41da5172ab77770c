// Narrowing: fewer places for figure atoms and figure links, while the search places atoms.
#![tactic(auto)]

mod alone;
mod barred;
pub mod choose;
mod follow;
mod given;
mod kin;
pub mod narrow;
mod spread;
pub mod users;

use rows::Sheet;

// A place of an atom and a link at it.
pub const PLACES: usize = Sheet::MOST_LINKS * Sheet::LINKS;
