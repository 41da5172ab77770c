// One try of the search: a figure atom goes to a sheet atom.
ghost use Rattle.std.specs.Prelude.{◌<◌, ◌≤◌, take};
ghost use Rattle.rows.specs.Limits.{sheet_atom_limit, sheet_marks};
ghost use Rattle.rows.specs.declared.Sheet.{Sheet as NormalForm};
ghost use Rattle.candidates.specs.Laid.{Rowed};
ghost use Rattle.lawful.specs.Checks.{Lent};
ghost use Rattle.symmetry.specs.Follows.{Excuses};
ghost use Rattle.matching.specs.Search.{sheet_of, figure_of, Lends, Sent};

use crate::send::send;
use crate::singly::try_singly;
use crate::state::{State, asks_after};
use candidates::frame::Frame;
use candidates::{KIN, LAID, LINK_SETS};
use narrowing::PLACES;
use rows::Sheet;
use symmetry::excuse::excuse;

// Work is counted no further.
const MOST_WORK: u32 = 1_000_000;

// The sum, where it is within what is counted.
pub(crate) fn tally(a: u32, b: u32) -> u32
    requires { 1 ≤ a }
    ensures { 1 ≤ result }
{
    if a < MOST_WORK {
        if b < MOST_WORK {
            return a + b;
        }
    }
    MOST_WORK
}

// Work at a node, each try and what it cost, before each candidate is tried by itself below it.
const SINGLY: u32 = 500;

// Figure atom k goes to sheet atom t; where tries have cost much already, each candidate is tried by itself then.
// Whether it is known that no good placing is left.
pub(crate) fn try_atom<'a>(
    state: State,
    work: u32,
    users: &'a [u64; PLACES],
    owners: &'a [u64; PLACES],
    kin: &'a [u16; KIN],
    laid: &'a [u16; LAID],
    parts: &'a [u16; LAID],
    k: usize,
    t: usize,
    atoms: &mut [u64; Sheet::ATOMS],
    links: &mut [u64; LINK_SETS],
    lost: &mut [u64; Sheet::ATOMS],
    gone: &mut [u64; LINK_SETS],
) -> bool
    requires { Lends state.sheet state.figure users.now owners.now kin.now laid.now parts.now × (k < state.figure.atom_count) × (t < state.sheet.atom_count) }
    ensures { Sent (sheet_of state laid.now) (figure_of state parts.now) k t atoms.old links.old atoms.new links.new result }
{
    if send(
        state,
        asks_after(state.asks, work),
        users,
        owners,
        kin,
        laid,
        parts,
        k,
        t,
        atoms,
        links,
        lost,
        gone,
    ) {
        return true;
    }
    if work < SINGLY {
        return false;
    }
    if state.figure.context_count == 0 {
        return false;
    }
    try_singly(
        state, users, owners, kin, laid, parts, atoms, links, lost, gone,
    )
}

// Sheet atom t failed after the first k chosen, at this cost: it is marked, and those that fail as surely.
pub(crate) fn excuse_failed<'a>(
    sheet: Frame,
    laid: &'a [u16; LAID],
    chosen: &'a [u16; Sheet::ATOMS],
    k: usize,
    t: usize,
    cost: u32,
    failed: &mut [u8; Sheet::ATOMS],
)
    requires { Rowed laid.now sheet.atom_count × (sheet.mark_count ≤ sheet_marks) × (k ≤ sheet_atom_limit) × (t < sheet.atom_count) }
    ensures { (net : NormalForm) → Lent net laid.now sheet.atom_count sheet.marked sheet.mark_count sheet.class_count → Excuses net (take k chosen.now) t failed.old failed.new }
{
    excuse(
        laid,
        sheet.atom_count,
        &sheet.marked,
        sheet.mark_count,
        sheet.class_count,
        chosen,
        k,
        t,
        cost,
        failed,
    );
}
