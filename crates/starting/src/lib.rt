// Where each figure atom and each figure link may go before the search places anything.
#![tactic(auto)]

mod alike;
pub mod first;
pub mod kin;
mod profile;
mod start;
