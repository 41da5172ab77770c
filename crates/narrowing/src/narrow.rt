// Narrowing until nothing changes.
ghost use Rattle.std.specs.Prelude.{◌≡◌, true, ℕ, ◌<◌};
ghost use Rattle.candidates.specs.Laid.{Rowed};
ghost use Rattle.candidates.specs.Tables.{NoAtom};
ghost use Rattle.narrowing.specs.Users.{UsersIn};
ghost use Rattle.narrowing.specs.Steps.{NarrowedBy};

use crate::PLACES;
use crate::alone::contested;
use crate::follow::follow;
use crate::kin::kin_turns;
use crate::spread::spread;
use candidates::pairs::is_empty;
use candidates::words::{ALL, one};
use candidates::{KIN, LAID, LINK_SETS};
use rows::Sheet;

// A round is the first or follows a loss of a link, so there are never more.
const ROUNDS: usize = Sheet::LINKS * Sheet::LINKS + 1;

// Losses are followed, from the atoms `first_due` on, then links that have one place are looked at, by turns until
// nothing is lost or some figure atom may go nowhere. Whether one may go nowhere.
fn narrow<'a>(
    users: &'a [u64; PLACES],
    owners: &'a [u64; PLACES],
    kin: &'a [u16; KIN],
    laid: &'a [u16; LAID],
    n: usize,
    parts: &'a [u16; LAID],
    m: usize,
    first_due: u64,
    atoms: &mut [u64; Sheet::ATOMS],
    links: &mut [u64; LINK_SETS],
    lost: &mut [u64; Sheet::ATOMS],
    gone: &mut [u64; LINK_SETS],
    pending: &mut [u64; 2],
) -> bool
    requires { Rowed laid.now n × UsersIn laid.now n users.now × Rowed parts.now m × UsersIn parts.now m owners.now }
    ensures narrowed { NarrowedBy kin.now laid.now n parts.now m atoms.old links.old atoms.new links.new }
    ensures empty { result ≡ true → (i : ℕ) × (i < m) × NoAtom atoms.new i }
{
    let mut due = first_due;
    for _ in 0..ROUNDS {
        if follow(
            users, owners, laid, n, parts, m, due, atoms, links, lost, gone, pending,
        ) {
            return true;
        }
        kin_turns(owners, kin, links, gone, pending);
        if is_empty(*pending) {
            return false;
        }
        due = 0;
    }
    false
}

// Atoms by links and links by atoms, from the first sets on, until nothing changes or some figure atom may go nowhere.
// Whether one may. Of the atoms only those are due whose one place others have too: all links are looked at.
pub fn narrow_all<'a>(
    users: &'a [u64; PLACES],
    owners: &'a [u64; PLACES],
    kin: &'a [u16; KIN],
    laid: &'a [u16; LAID],
    n: usize,
    parts: &'a [u16; LAID],
    m: usize,
    atoms: &mut [u64; Sheet::ATOMS],
    links: &mut [u64; LINK_SETS],
) -> bool
    requires { Rowed laid.now n × UsersIn laid.now n users.now × Rowed parts.now m × UsersIn parts.now m owners.now }
    ensures narrowed { NarrowedBy kin.now laid.now n parts.now m atoms.old links.old atoms.new links.new }
    ensures empty { result ≡ true → (i : ℕ) × (i < m) × NoAtom atoms.new i }
{
    let mut lost = [0u64; Sheet::ATOMS];
    let mut gone = [ALL; LINK_SETS];
    let mut pending = [0u64; 2];
    spread(laid, n, parts, m, atoms, links, &mut pending);
    narrow(
        users,
        owners,
        kin,
        laid,
        n,
        parts,
        m,
        contested(m, atoms),
        atoms,
        links,
        &mut lost,
        &mut gone,
        &mut pending,
    )
}

// The same after figure atom k has lost the sheet atoms of `went`.
pub fn narrow_after<'a>(
    users: &'a [u64; PLACES],
    owners: &'a [u64; PLACES],
    kin: &'a [u16; KIN],
    laid: &'a [u16; LAID],
    n: usize,
    parts: &'a [u16; LAID],
    m: usize,
    k: usize,
    went: u64,
    atoms: &mut [u64; Sheet::ATOMS],
    links: &mut [u64; LINK_SETS],
    lost: &mut [u64; Sheet::ATOMS],
    gone: &mut [u64; LINK_SETS],
) -> bool
    requires { Rowed laid.now n × UsersIn laid.now n users.now × Rowed parts.now m × UsersIn parts.now m owners.now × (k < m) }
    ensures narrowed { NarrowedBy kin.now laid.now n parts.now m atoms.old links.old atoms.new links.new }
    ensures empty { result ≡ true → (i : ℕ) × (i < m) × NoAtom atoms.new i }
{
    let mut pending = [0u64; 2];
    lost[k] = went;
    narrow(
        users,
        owners,
        kin,
        laid,
        n,
        parts,
        m,
        one(k),
        atoms,
        links,
        lost,
        gone,
        &mut pending,
    )
}
