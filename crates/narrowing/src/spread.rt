// Figure links by what the sheet atoms can give that are left for their atoms.
ghost use Rattle.std.specs.Prelude.{◌≡◌, List, ℕ, ◌*◌, ◌<◌, ◌≤◌, length};
ghost use Rattle.rows.specs.Format.{most_links};
ghost use Rattle.rows.specs.Limits.{sheet_link_limit};
ghost use Rattle.network.specs.NetIn.{Used};
ghost use Rattle.candidates.specs.Laid.{laid_atom, Rowed};
ghost use Rattle.candidates.specs.Tables.{LinksStay};
ghost use Rattle.narrowing.specs.Steps.{GivenTable, TableRow, NarrowedBy};

use crate::given::given;
use candidates::laid::laid_atom;
use candidates::pairs::{common, pair_at, set_pair, with};
use candidates::{LAID, LINK_SETS};
use rows::{Atom, Sheet};

// For each place of an atom a set of links.
const GIVEN: usize = Sheet::MOST_LINKS * 2;

// The links that the atoms of `row` have at their first `count` places. Where `table` has them, as those of `before` at
// the first `known`, nothing is done. At how many places it has them.
fn look_up(
    laid: &[u16; LAID],
    n: usize,
    before: u64,
    known: usize,
    row: u64,
    count: usize,
    table: &mut [u64; GIVEN],
) -> usize
    requires { Rowed laid.now n × (count ≤ most_links) × (length table.old ≡ most_links * 2) }
    ensures { (length table.new ≡ most_links * 2) × (count ≤ result) × (GivenTable (laid_atom laid.now) n before known table.old → GivenTable (laid_atom laid.now) n row result table.new) }
{
    if row == before {
        if count <= known {
            return known;
        }
    }
    for k in 0..count {
        let pair = given(laid, n, row, k);
        table[k * 2] = pair[0];
        table[k * 2 + 1] = pair[1];
    }
    count
}

// The links of the figure atom `here` to what the table has for their places; they are pending then.
fn keep_given(
    here: Atom,
    table: &[u64; GIVEN],
    links: &mut [u64; LINK_SETS],
    pending: &mut [u64; 2],
)
    requires { Used sheet_link_limit here.count here.links }
    ensures { LinksStay links.old links.new (TableRow table.now here) }
{
    let count = here.count as usize;
    for k in 0..count {
        let x = here.links[k] as usize - 1;
        let before = pair_at(links, x);
        set_pair(links, x, common(before, [table[k * 2], table[k * 2 + 1]]));
        let more = with(*pending, x);
        *pending = more;
    }
}

// Every link to what its atoms can give; all are pending then. Where atoms that follow each other have the same sheet
// atoms left, what these give is looked up once.
pub(crate) fn spread<'a>(
    laid: &'a [u16; LAID],
    n: usize,
    parts: &'a [u16; LAID],
    m: usize,
    atoms: &[u64; Sheet::ATOMS],
    links: &mut [u64; LINK_SETS],
    pending: &mut [u64; 2],
)
    requires { Rowed laid.now n × Rowed parts.now m }
    ensures { (kin : List ℕ) → NarrowedBy kin laid.now n parts.now m atoms.now links.old atoms.now links.new }
{
    let mut table = [0u64; GIVEN];
    let mut row = 0u64;
    let mut known = 0;
    for i in 0..m {
        let here = laid_atom(parts, i);
        let now = look_up(
            laid,
            n,
            row,
            known,
            atoms[i],
            here.count as usize,
            &mut table,
        );
        row = atoms[i];
        known = now;
        keep_given(here, &table, links, pending);
    }
}
