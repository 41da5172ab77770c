// The places of a sheet's atoms on each link, as chains in one table. At a link, from 0, stands the node of
// its last place, at a node that of the place before it on the same link; 0 where there is none. Place k of
// atom j has the node LINKS + j * MOST_LINKS + k.
ghost use Rattle.std.specs.Prelude.{◌≡◌, suc, ◌<◌, ◌≤◌, length, replicate};
ghost use Rattle.rows.specs.Format.{most_links};
ghost use Rattle.rows.specs.Limits.{sheet_atom_limit, sheet_link_limit};
ghost use Rattle.rows.specs.declared.Sheet.{Sheet as NormalForm};
ghost use Rattle.placing.specs.Net.{Net};
ghost use Rattle.candidates.specs.Laid.{Rowed, LaidOut};
ghost use Rattle.stepping.specs.Flags.{Within};
ghost use Rattle.stepping.specs.Chains.{node_of, Chained, ChainsIn, RowIn, node_count};

use crate::CHAINS;
use candidates::LAID;
use candidates::laid::laid_atom;
use rows::Sheet;

// The places of atom j, after those of the atoms before it.
fn chain(table: &mut [u16; CHAINS], j: usize, links: [u16; Sheet::MOST_LINKS], count: usize)
    requires { (j < sheet_atom_limit) × (count ≤ most_links) × Within sheet_link_limit count links × (length table.old ≡ node_count) }
    ensures { (length table.new ≡ node_count) × ((S : Net) → RowIn S j links count → Chained S (node_of j 0) table.old → Chained S (node_of (suc j) 0) table.new) }
{
    for k in 0..count {
        let y = (links[k] - 1) as usize;
        let v = Sheet::LINKS + (j * Sheet::MOST_LINKS + k);
        table[v] = table[y];
        table[y] = v as u16;
    }
}

// The chains of the atoms in `laid`, from a table of zeros.
pub fn chains(table: &mut [u16; CHAINS], laid: &[u16; LAID], atoms: usize)
    requires { Rowed laid.now atoms × (table.old ≡ replicate node_count 0) }
    ensures { (sheet : NormalForm) → LaidOut sheet laid.now atoms → ChainsIn sheet table.new }
{
    for j in 0..atoms {
        let a = laid_atom(laid, j);
        let links = a.links;
        chain(table, j, links, a.count as usize);
    }
}
