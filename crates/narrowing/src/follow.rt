// Losses of figure atoms and figure links, and what follows from them.
ghost use Rattle.std.specs.Prelude.{◌≡◌, true, List, ℕ, ◌<◌, IfSome};
ghost use Rattle.rows.specs.Limits.{sheet_link_limit};
ghost use Rattle.candidates.specs.Laid.{laid_atom, Rowed};
ghost use Rattle.candidates.specs.Tables.{AtomsStay, NoAtom};
ghost use Rattle.narrowing.specs.Users.{UsersIn};
ghost use Rattle.narrowing.specs.Steps.{NarrowedBy, Fitting};

use crate::PLACES;
use crate::alone::alone;
use crate::barred::follow_link;
use crate::given::follow_atom;
use candidates::laid::laid_atom;
use candidates::pairs::{pair_at, set_pair};
use candidates::words::{DIGITS, first, minus, one};
use candidates::{LAID, LINK_SETS};
use rows::Sheet;

// A turn follows a loss of an atom or a link, or is the first for it, so there are never more.
const TURNS: usize = (Sheet::ATOMS + 1) * Sheet::ATOMS + (Sheet::LINKS + 1) * Sheet::LINKS;

// The losses of figure link x are followed.
fn link_turn<'a>(
    users: &'a [u64; PLACES],
    owners: &'a [u64; PLACES],
    x: usize,
    links: &'a [u64; LINK_SETS],
    atoms: &mut [u64; Sheet::ATOMS],
    lost: &mut [u64; Sheet::ATOMS],
    gone: &mut [u64; LINK_SETS],
) -> u64
    requires { x < sheet_link_limit }
    ensures { (sheet : List ℕ) (n : ℕ) (figure : List ℕ) (m : ℕ) → Rowed sheet n → UsersIn sheet n users.now → UsersIn figure m owners.now → AtomsStay atoms.old atoms.new (λ i t. (i < m) × (t < n) × Fitting (laid_atom figure i) (laid_atom sheet t) links.now) }
{
    let went = pair_at(gone, x);
    set_pair(gone, x, [0; 2]);
    follow_link(users, owners, x, went, links, atoms, lost)
}

// The losses of figure atom i are followed. The figure atoms that lost some by that.
fn atom_turn<'a>(
    users: &'a [u64; PLACES],
    laid: &'a [u16; LAID],
    n: usize,
    parts: &'a [u16; LAID],
    m: usize,
    i: usize,
    atoms: &mut [u64; Sheet::ATOMS],
    links: &mut [u64; LINK_SETS],
    lost: &mut [u64; Sheet::ATOMS],
    gone: &mut [u64; LINK_SETS],
    pending: &mut [u64; 2],
) -> u64
    requires { Rowed laid.now n × UsersIn laid.now n users.now × Rowed parts.now m × (i < m) }
    ensures { (kin : List ℕ) → NarrowedBy kin laid.now n parts.now m atoms.old links.old atoms.new links.new }
{
    let here = laid_atom(parts, i);
    let went = lost[i];
    lost[i] = 0;
    follow_atom(users, laid, n, here, atoms[i], went, links, gone, pending);
    alone(i, m, atoms, lost)
}

// The next pending link, counted from 0, where it is one of a sheet.
fn next_link(pending: &[u64; 2]) -> Option<usize>
    ensures { IfSome result (λ x. x < sheet_link_limit) }
{
    if pending[0] != 0 {
        return Some(first(pending[0]));
    }
    if pending[1] != 0 {
        let x = DIGITS + first(pending[1]);
        if x < Sheet::LINKS {
            return Some(x);
        }
    }
    None
}

// Link x is no longer pending.
fn done_link(pending: &mut [u64; 2], x: usize)
    requires { x < sheet_link_limit }
{
    let half = x / DIGITS;
    pending[half] = minus(pending[half], one(x % DIGITS));
}

// Losses are followed, of the atoms `due` and the links `pending`, until none is left or some figure atom may go
// nowhere. Whether one may go nowhere.
pub(crate) fn follow<'a>(
    users: &'a [u64; PLACES],
    owners: &'a [u64; PLACES],
    laid: &'a [u16; LAID],
    n: usize,
    parts: &'a [u16; LAID],
    m: usize,
    first_due: u64,
    atoms: &mut [u64; Sheet::ATOMS],
    links: &mut [u64; LINK_SETS],
    lost: &mut [u64; Sheet::ATOMS],
    gone: &mut [u64; LINK_SETS],
    pending: &mut [u64; 2],
) -> bool
    requires { Rowed laid.now n × UsersIn laid.now n users.now × Rowed parts.now m × UsersIn parts.now m owners.now }
    ensures narrowed { (kin : List ℕ) → NarrowedBy kin laid.now n parts.now m atoms.old links.old atoms.new links.new }
    ensures empty { result ≡ true → (i : ℕ) × (i < m) × NoAtom atoms.new i }
{
    let mut due = first_due;
    for _ in 0..TURNS {
        if let Some(x) = next_link(pending) {
            done_link(pending, x);
            due = due | link_turn(users, owners, x, links, atoms, lost, gone);
        } else {
            if due == 0 {
                return false;
            }
            let i = first(due);
            if m <= i {
                return false;
            }
            if atoms[i] == 0 {
                return true;
            }
            due = minus(due, one(i));
            due = due
                | atom_turn(
                    users, laid, n, parts, m, i, atoms, links, lost, gone, pending,
                );
        }
    }
    false
}
