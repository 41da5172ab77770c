// Finding a figure in a sheet.
#![tactic(auto)]

mod begin;
mod crowd;
mod forced;
pub mod search;
mod send;
mod singly;
mod state;
mod tries;
