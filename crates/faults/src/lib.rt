// What keeps placed atoms from being completed to a good placing.
#![tactic(auto)]

pub mod fault;
mod growth;
pub mod nets;
pub mod part;
