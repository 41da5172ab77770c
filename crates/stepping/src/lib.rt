// Tables over figure and sheet, and figure links that are linked by steps.
#![tactic(auto)]

pub mod chains;
pub mod contexts;
pub mod lookup;
pub mod plain;
pub mod standing;
pub mod steps;

use rows::Sheet;

// Sizes of flat tables.
pub const CHAINS: usize = Sheet::LINKS + Sheet::ATOMS * Sheet::MOST_LINKS;

pub const PORTS: usize = Sheet::CONTEXT_ROOM * Sheet::LINKS;
