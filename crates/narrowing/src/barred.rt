// Sheet atoms whose links may not be where a figure link goes.
ghost use Rattle.std.specs.Prelude.{List, ℕ, ◌+◌, ◌*◌, ◌<◌, ◌≤◌, get_or};
ghost use Rattle.rows.specs.Format.{most_links};
ghost use Rattle.rows.specs.Limits.{sheet_link_limit};
ghost use Rattle.candidates.specs.Laid.{laid_atom, Rowed};
ghost use Rattle.candidates.specs.Words.{word_digits, In};
ghost use Rattle.candidates.specs.Tables.{AtomsStay};
ghost use Rattle.narrowing.specs.Users.{UsersIn, UsesAt};
ghost use Rattle.narrowing.specs.Steps.{Barred, Fitting};

use crate::PLACES;
use candidates::LINK_SETS;
use candidates::pairs::{pair_at, without};
use candidates::words::{ALL, DIGITS, first, minus, one};
use rows::Sheet;

// The atoms in the words that a set names, of n words from place `at` of the table.
fn union(users: &[u64; PLACES], at: usize, n: usize, s: u64) -> u64
    requires { at + n ≤ most_links * sheet_link_limit }
    ensures { ((t : ℕ) → In result t → (y : ℕ) × (y < n) × In s y × In (get_or users.now (at + y) 0) t) × ((t y : ℕ) → y < n → In s y → In (get_or users.now (at + y) 0) t → In result t) }
{
    let mut all = 0u64;
    let mut rest = s;
    while rest != 0 {
        let y = first(rest);
        rest = minus(rest, one(y));
        if y < n {
            all = all | users[at + y];
        }
    }
    all
}

// The atoms that have one of these links at place k.
fn users_at(users: &[u64; PLACES], k: usize, set: [u64; 2]) -> u64
    requires { k < most_links }
    ensures { ((t : ℕ) → In result t → UsesAt users.now k set t) × ((t : ℕ) → UsesAt users.now k set t → In result t) }
{
    let at = k * Sheet::LINKS;
    let low = union(users, at, DIGITS, set[0]);
    let high = union(users, at + DIGITS, Sheet::LINKS - DIGITS, set[1]);
    low | high
}

fn members(s: u64) -> u32
    ensures { result ≤ word_digits }
{
    u64::count_ones(s)
}

fn size(set: [u64; 2]) -> u32 {
    members(set[0]) + members(set[1])
}

// Atoms that have none of the links left at place k. `lost` are links that went: where they are fewer than those
// left, their users are looked up.
fn barred(users: &[u64; PLACES], k: usize, left: [u64; 2], lost: [u64; 2]) -> u64
    requires { k < most_links }
    ensures { Barred users.now k left result }
{
    let gone = without(lost, left);
    if size(left) < size(gone) {
        return minus(ALL, users_at(users, k, left));
    }
    users_at(users, k, gone)
}

// The sheet atoms of `out` are taken from each figure atom of `some`; what went is added to `lost`. The figure
// atoms that lost any.
fn take_from(
    some: u64,
    out: u64,
    atoms: &mut [u64; Sheet::ATOMS],
    lost: &mut [u64; Sheet::ATOMS],
) -> u64
    ensures { AtomsStay atoms.old atoms.new (λ i t. In some i → ¬ In out t) }
{
    let mut due = 0u64;
    let mut rest = some;
    while rest != 0 {
        let i = first(rest);
        rest = minus(rest, one(i));
        let row = atoms[i];
        if row & out != 0 {
            atoms[i] = minus(row, out);
            lost[i] = lost[i] | (row & out);
            due = due | one(i);
        }
    }
    due
}

// Figure link x, counted from 0, has lost some: the figure atoms that have it lose those that would bring it there.
// `owners` has these by their places. The figure atoms that lost any.
pub(crate) fn follow_link<'a>(
    users: &'a [u64; PLACES],
    owners: &'a [u64; PLACES],
    x: usize,
    gone: [u64; 2],
    links: &'a [u64; LINK_SETS],
    atoms: &mut [u64; Sheet::ATOMS],
    lost: &mut [u64; Sheet::ATOMS],
) -> u64
    requires { x < sheet_link_limit }
    ensures { (sheet : List ℕ) (n : ℕ) (figure : List ℕ) (m : ℕ) → Rowed sheet n → UsersIn sheet n users.now → UsersIn figure m owners.now → AtomsStay atoms.old atoms.new (λ i t. (i < m) × (t < n) × Fitting (laid_atom figure i) (laid_atom sheet t) links.now) }
{
    let left = pair_at(links, x);
    let mut due = 0u64;
    for k in 0..Sheet::MOST_LINKS {
        let some = owners[k * Sheet::LINKS + x];
        if some != 0 {
            let out = barred(users, k, left, gone);
            due = due | take_from(some, out, atoms, lost);
        }
    }
    due
}
