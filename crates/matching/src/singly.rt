// Each candidate of each figure atom is tried by itself: what dies at once is dropped.
ghost use Rattle.std.specs.Prelude.{◌≡◌, true, ◌<◌};
ghost use Rattle.placing.specs.Placing.{Placing};
ghost use Rattle.matching.specs.Search.{sheet_of, figure_of, Lends, GoesTo, Pruned};

use crate::send::send;
use crate::state::State;
use candidates::forced::{forced, next_from};
use candidates::words::{minus, one};
use candidates::{KIN, LAID, LINK_SETS};
use narrowing::PLACES;
use narrowing::narrow::narrow_after;
use rows::Sheet;

// Whether it is known that nothing good in the sets sends figure atom k to sheet atom t.
fn dies<'a>(
    state: State,
    users: &'a [u64; PLACES],
    owners: &'a [u64; PLACES],
    kin: &'a [u16; KIN],
    laid: &'a [u16; LAID],
    parts: &'a [u16; LAID],
    k: usize,
    t: usize,
    atoms: &[u64; Sheet::ATOMS],
    links: &[u64; LINK_SETS],
    lost: &mut [u64; Sheet::ATOMS],
    gone: &mut [u64; LINK_SETS],
) -> bool
    requires { Lends state.sheet state.figure users.now owners.now kin.now laid.now parts.now × (k < state.figure.atom_count) × (t < state.sheet.atom_count) }
    ensures { result ≡ true → (p : Placing) → ¬ GoesTo (sheet_of state laid.now) (figure_of state parts.now) atoms.now links.now k t p }
{
    let mut left = *atoms;
    let mut rows = *links;
    send(
        state, true, users, owners, kin, laid, parts, k, t, &mut left, &mut rows, lost, gone,
    )
}

// Figure atom k does not go to sheet atom t, if it is known that nothing good does: the sets are narrowed. Whether it is
// known that no good placing is left.
fn try_candidate<'a>(
    state: State,
    users: &'a [u64; PLACES],
    owners: &'a [u64; PLACES],
    kin: &'a [u16; KIN],
    laid: &'a [u16; LAID],
    parts: &'a [u16; LAID],
    k: usize,
    t: usize,
    atoms: &mut [u64; Sheet::ATOMS],
    links: &mut [u64; LINK_SETS],
    lost: &mut [u64; Sheet::ATOMS],
    gone: &mut [u64; LINK_SETS],
) -> bool
    requires { Lends state.sheet state.figure users.now owners.now kin.now laid.now parts.now × (k < state.figure.atom_count) × (t < state.sheet.atom_count) }
    ensures { Pruned (sheet_of state laid.now) (figure_of state parts.now) atoms.old links.old atoms.new links.new result }
{
    if !dies(
        state, users, owners, kin, laid, parts, k, t, atoms, links, lost, gone,
    ) {
        return false;
    }
    let row = atoms[k];
    atoms[k] = minus(row, one(t));
    narrow_after(
        users,
        owners,
        kin,
        laid,
        state.sheet.atom_count,
        parts,
        state.figure.atom_count,
        k,
        one(t),
        atoms,
        links,
        lost,
        gone,
    )
}

// The candidates of figure atom k, where it has several.
fn try_row<'a>(
    state: State,
    users: &'a [u64; PLACES],
    owners: &'a [u64; PLACES],
    kin: &'a [u16; KIN],
    laid: &'a [u16; LAID],
    parts: &'a [u16; LAID],
    k: usize,
    atoms: &mut [u64; Sheet::ATOMS],
    links: &mut [u64; LINK_SETS],
    lost: &mut [u64; Sheet::ATOMS],
    gone: &mut [u64; LINK_SETS],
) -> bool
    requires { Lends state.sheet state.figure users.now owners.now kin.now laid.now parts.now × (k < state.figure.atom_count) }
    ensures { Pruned (sheet_of state laid.now) (figure_of state parts.now) atoms.old links.old atoms.new links.new result }
{
    let n = state.sheet.atom_count;
    if forced(atoms, k, n).is_some() {
        return false;
    }
    let mut next = next_from(atoms, k, 0, n);
    while let Some(t) = next {
        if try_candidate(
            state, users, owners, kin, laid, parts, k, t, atoms, links, lost, gone,
        ) {
            return true;
        }
        next = next_from(atoms, k, t + 1, n);
    }
    false
}

// All candidates of all figure atoms. Whether it is known that no good placing is left.
pub(crate) fn try_singly<'a>(
    state: State,
    users: &'a [u64; PLACES],
    owners: &'a [u64; PLACES],
    kin: &'a [u16; KIN],
    laid: &'a [u16; LAID],
    parts: &'a [u16; LAID],
    atoms: &mut [u64; Sheet::ATOMS],
    links: &mut [u64; LINK_SETS],
    lost: &mut [u64; Sheet::ATOMS],
    gone: &mut [u64; LINK_SETS],
) -> bool
    requires { Lends state.sheet state.figure users.now owners.now kin.now laid.now parts.now }
    ensures { Pruned (sheet_of state laid.now) (figure_of state parts.now) atoms.old links.old atoms.new links.new result }
{
    let m = state.figure.atom_count;
    for k in 0..m {
        if try_row(
            state, users, owners, kin, laid, parts, k, atoms, links, lost, gone,
        ) {
            return true;
        }
    }
    false
}
