// The least completion of placed atoms: where the open links go, and which contexts the other atoms are given to.
#![tactic(auto)]

mod completable;
pub mod complete;
mod neighbours;
mod obstacle;
mod settle;
