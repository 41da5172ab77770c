// A figure atom is sent to a sheet atom.
ghost use Rattle.std.specs.Prelude.{◌<◌};
ghost use Rattle.matching.specs.Search.{sheet_of, figure_of, Lends, Sent};

use crate::crowd::crowded_at;
use crate::state::State;
use candidates::{KIN, LAID, LINK_SETS};
use narrowing::PLACES;
use narrowing::choose::choose;
use narrowing::narrow::narrow_after;
use rows::Sheet;

// Figure atom k goes to sheet atom t, and the sets are narrowed. Whether it is known that no good placing is left: some
// atom may go nowhere, or, where that is asked, too many ways lead from context to context.
pub(crate) fn send<'a>(
    state: State,
    asks: bool,
    users: &'a [u64; PLACES],
    owners: &'a [u64; PLACES],
    kin: &'a [u16; KIN],
    laid: &'a [u16; LAID],
    parts: &'a [u16; LAID],
    k: usize,
    t: usize,
    atoms: &mut [u64; Sheet::ATOMS],
    links: &mut [u64; LINK_SETS],
    lost: &mut [u64; Sheet::ATOMS],
    gone: &mut [u64; LINK_SETS],
) -> bool
    requires { Lends state.sheet state.figure users.now owners.now kin.now laid.now parts.now × (k < state.figure.atom_count) × (t < state.sheet.atom_count) }
    ensures { Sent (sheet_of state laid.now) (figure_of state parts.now) k t atoms.old links.old atoms.new links.new result }
{
    let went = choose(k, t, atoms);
    if narrow_after(
        users,
        owners,
        kin,
        laid,
        state.sheet.atom_count,
        parts,
        state.figure.atom_count,
        k,
        went,
        atoms,
        links,
        lost,
        gone,
    ) {
        return true;
    }
    if !asks {
        return false;
    }
    crowded_at(state.sheet, state.figure, laid, parts, atoms, links)
}
