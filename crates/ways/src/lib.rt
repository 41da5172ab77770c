// Ways through the sheet from one half of the contexts to the other.
#![tactic(auto)]

pub mod crowded;
mod flow;
mod flow_network;
mod guarded;
mod guards;
mod halves;
mod look;
pub mod outnumbered;
mod row;
mod search;
mod told;
mod trail;

use rows::Sheet;

// For each half, none and both among them, a flag of each sheet link.
pub const SORTED: usize = 4 * Sheet::LINKS;
// The room for ways, one behind the other: each has its last link, from 1, and then the marks of its steps, the last
// one first.
pub const TRAILS: usize = 512;
