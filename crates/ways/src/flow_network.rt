// What ways lead through.
ghost use Rattle.std.specs.Prelude.{◌≤◌};
ghost use Rattle.rows.specs.Limits.{sheet_link_limit};
ghost use Rattle.candidates.specs.Laid.{Rowed};
ghost use Rattle.stepping.specs.Chains.{node_of, Falls};

use crate::SORTED;
use candidates::LAID;
use rows::Sheet;
use stepping::CHAINS;

// The sheet's atoms, laid out, and the chains of its links. `taken` has 1 for the atoms that no way passes, and 2 for the
// guarded ones, which at most one way passes; `guarded` has the links over which at most one way leads; `sorted` says
// which figure links go to a link, by their halves.
#[derive(Clone, Copy)]
pub(crate) struct FlowNetwork<'a> {
    pub(crate) atoms: usize,
    pub(crate) links: usize,
    pub(crate) laid: &'a [u16; LAID],
    pub(crate) chains: &'a [u16; CHAINS],
    pub(crate) taken: &'a [u8; Sheet::ATOMS],
    pub(crate) guarded: [u64; 2],
    pub(crate) sorted: &'a [u8; SORTED],
    pub(crate) ghost rowed: { Rowed laid.now atoms },
    pub(crate) ghost few_links: { links ≤ sheet_link_limit },
    pub(crate) ghost falls: { Falls (node_of atoms 0) chains.now },
}
