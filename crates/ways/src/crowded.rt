// Is a search node crowded: do more ways lead from one half of the contexts to the other than can be broken by what
// is not placed yet?
ghost use Rattle.std.specs.Prelude.{suc};
ghost use Rattle.rows.specs.declared.Sheet.{Sheet as NormalForm};
ghost use Rattle.ways.specs.Nodes.{NodeOf, NoneStays, Tells};

use crate::guarded::{guard_rows, shut};
use crate::guards::guard_links;
use crate::outnumbered::{contexts, outnumbered_by};
use crate::told::{tell_links, tell_marks};
use candidates::{LAID, LINK_SETS};
use rows::Sheet;
use stepping::CHAINS;

// For these two halves: ways that a figure atom may break are counted with it, and then not taken at all.
fn crowded_by(
    atoms: usize,
    links: usize,
    count: usize,
    laid: &[u16; LAID],
    chains: &[u16; CHAINS],
    rows: usize,
    parts: &[u16; LAID],
    standing: &[u16; Sheet::LINKS],
    places: &[u64; Sheet::ATOMS],
    sets: &[u64; LINK_SETS],
    marked: &[u16; Sheet::MARK_ROOM],
    marks: usize,
    to: &[u16; Sheet::LINKS],
    flags: &[u8; Sheet::LINKS],
    opens: &[u8; Sheet::LINKS],
    side: u16,
) -> bool
    requires { (sheet : NormalForm) × (figure : NormalForm) × NodeOf sheet figure atoms links count laid.now chains.now rows parts.now standing.now marked.now marks × Tells parts.now rows marked.now marks sets.now (suc links) to.now flags.now opens.now }
    ensures { (sheet figure : NormalForm) → NodeOf sheet figure atoms links count laid.now chains.now rows parts.now standing.now marked.now marks → NoneStays sheet figure places.now sets.now result }
{
    let mut taken = [0u8; Sheet::ATOMS];
    let breaking = guard_rows(&mut taken, parts, rows, standing, side, places, atoms);
    let guarded = guard_links(sets, opens, count, standing, flags, side);
    if outnumbered_by(
        atoms, links, count, laid, chains, &taken, standing, to, flags, guarded, breaking, side,
    ) {
        return true;
    }
    if breaking == 0 {
        return false;
    }
    shut(&mut taken, atoms);
    outnumbered_by(
        atoms, links, count, laid, chains, &taken, standing, to, flags, guarded, 0, side,
    )
}

// No good placing stays in the sets: figure atoms may go to `places`, figure links to `sets`. The sheet's atoms are
// laid out in `laid`, the figure's in `parts`.
pub fn crowded(
    atoms: usize,
    links: usize,
    count: usize,
    laid: &[u16; LAID],
    chains: &[u16; CHAINS],
    rows: usize,
    parts: &[u16; LAID],
    standing: &[u16; Sheet::LINKS],
    places: &[u64; Sheet::ATOMS],
    sets: &[u64; LINK_SETS],
    marked: &[u16; Sheet::MARK_ROOM],
    marks: usize,
) -> bool
    requires { (sheet : NormalForm) × (figure : NormalForm) × NodeOf sheet figure atoms links count laid.now chains.now rows parts.now standing.now marked.now marks }
    ensures { (sheet figure : NormalForm) → NodeOf sheet figure atoms links count laid.now chains.now rows parts.now standing.now marked.now marks → NoneStays sheet figure places.now sets.now result }
{
    let all = contexts(standing, count);
    if all == 0 {
        return false;
    }
    let mut to = [(links + 1) as u16; Sheet::LINKS];
    let mut flags = [1u8; Sheet::LINKS];
    let mut opens = [1u8; Sheet::LINKS];
    tell_links(&mut to, &mut flags, &mut opens, sets, links, parts, rows);
    tell_marks(&mut to, &mut flags, &mut opens, sets, links, marked, marks);
    let rest = all & (all - 1);
    let mut side = rest;
    while side != 0 {
        if crowded_by(
            atoms, links, count, laid, chains, rows, parts, standing, places, sets, marked, marks,
            &to, &flags, &opens, side,
        ) {
            return true;
        }
        side = (side - 1) & rest;
    }
    false
}
