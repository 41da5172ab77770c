// Do more ways lead from one half of the contexts to the other than can be broken?
ghost use Rattle.std.specs.Prelude.{ℕ, ◌<◌, ◌≤◌, slice_index};
ghost use Rattle.rows.specs.Limits.{sheet_atom_limit, sheet_link_limit};
ghost use Rattle.rows.specs.declared.Sheet.{Sheet as NormalForm};
ghost use Rattle.candidates.specs.Laid.{LaidOut};
ghost use Rattle.candidates.specs.Words.{In};
ghost use Rattle.stepping.specs.Standing.{Described, Refuses};
ghost use Rattle.ways.specs.Agrees.{NoneAgrees};

use crate::flow::{find_ways, lay};
use crate::flow_network::FlowNetwork;
use crate::guards::{flag_of, spread};
use crate::halves::{crossing, sorted};
use crate::search::FLOW;
use crate::trail::ways;
use crate::{SORTED, TRAILS};
use candidates::LAID;
use candidates::words::ALL;
use rows::Sheet;
use stepping::CHAINS;

// More than can be broken.
const MANY: usize = 2 * Sheet::LINKS;

// How many ways can have their ends at the links of half h that have no flag of both: one at each guarded link, many at
// another.
fn ends(sorted: &[u8; SORTED], guarded: [u64; 2], links: usize, h: usize) -> usize
    requires { (links ≤ sheet_link_limit) × (h < 4) }
{
    let mut n = 0;
    for y in 0..links {
        if sorted[h * Sheet::LINKS + y] == 1 {
            if sorted[3 * Sheet::LINKS + y] != 1 {
                if flag_of(guarded, y) != 1 {
                    return MANY;
                }
                n += 1;
            }
        }
    }
    n
}

// No placing is left that agrees with the tables: more ways from one half of the contexts to the other, no two of
// them with a guarded link or a guarded atom in common, than links with a flag that stand on both, and figure atoms
// that break ways. Where too few ways can start or end none is looked for.
pub fn outnumbered_by(
    atoms: usize,
    links: usize,
    count: usize,
    laid: &[u16; LAID],
    chains: &[u16; CHAINS],
    taken: &[u8; Sheet::ATOMS],
    standing: &[u16; Sheet::LINKS],
    to: &[u16; Sheet::LINKS],
    flags: &[u8; Sheet::LINKS],
    guarded: [u64; 2],
    breaking: usize,
    side: u16,
) -> bool
    requires { (sheet : NormalForm) × (figure : NormalForm) × Described sheet figure atoms links count chains.now standing.now to.now × LaidOut sheet laid.now atoms × (breaking ≤ sheet_atom_limit) }
    ensures { (sheet figure : NormalForm) → Described sheet figure atoms links count chains.now standing.now to.now → LaidOut sheet laid.now atoms → NoneAgrees sheet figure to.now flags.now taken.now guarded side breaking result }
{
    let table = sorted(count, standing, to, (links + 1) as u16, side);
    let most = crossing(count, standing, flags, side) + breaking;
    if ends(&table, guarded, links, 1) <= most {
        return false;
    }
    if ends(&table, guarded, links, 2) <= most {
        return false;
    }
    let net = FlowNetwork {
        atoms,
        links,
        laid,
        chains,
        taken,
        guarded,
        sorted: &table,
    };
    let mut flow = [0u8; FLOW];
    if !find_ways(&net, &mut flow, most + 1) {
        return false;
    }
    let guards = spread(guarded, links);
    let mut trails = [0u16; TRAILS];
    lay(&mut trails, &net, &mut flow);
    most < ways(&net, &guards, &trails)
}

// The contexts on which figure links stand, in one word.
pub(crate) fn contexts(standing: &[u16; Sheet::LINKS], count: usize) -> u16
    requires { count ≤ sheet_link_limit }
    ensures { (x : ℕ) → x < count → (t : ℕ) → In (slice_index standing.now x) t → In result t }
{
    let mut all = 0u16;
    for x in 0..count {
        all = all | standing[x];
    }
    all
}

// No completion is left: more ways from one half of the contexts to the other, no two of them with a link in
// common, than open links that stand on both. The first context is always on the second half.
pub fn outnumbered(
    atoms: usize,
    links: usize,
    count: usize,
    laid: &[u16; LAID],
    chains: &[u16; CHAINS],
    taken: &[u8; Sheet::ATOMS],
    standing: &[u16; Sheet::LINKS],
    to: &[u16; Sheet::LINKS],
    flags: &[u8; Sheet::LINKS],
) -> bool
    requires { (sheet : NormalForm) × (figure : NormalForm) × Described sheet figure atoms links count chains.now standing.now to.now × LaidOut sheet laid.now atoms }
    ensures { (sheet figure : NormalForm) → Described sheet figure atoms links count chains.now standing.now to.now → LaidOut sheet laid.now atoms → Refuses sheet figure taken.now to.now flags.now result }
{
    let all = contexts(standing, count);
    if all == 0 {
        return false;
    }
    let rest = all & (all - 1);
    let mut side = rest;
    while side != 0 {
        if outnumbered_by(
            atoms,
            links,
            count,
            laid,
            chains,
            taken,
            standing,
            to,
            flags,
            [ALL, ALL],
            0,
            side,
        ) {
            return true;
        }
        side = (side - 1) & rest;
    }
    false
}
