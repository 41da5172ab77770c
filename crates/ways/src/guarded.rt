// The figure atoms at a search node, for two halves of the contexts: one that has a single place takes it, and one
// whose links are not on one half breaks ways wherever it may go, so that at most one way passes there.
ghost use Rattle.std.specs.Prelude.{◌≡◌, ◌+◌, ◌<◌, ◌≤◌, true, length};
ghost use Rattle.rows.specs.Limits.{sheet_atom_limit};
ghost use Rattle.candidates.specs.Laid.{Rowed};
ghost use Rattle.ways.specs.Nodes.{RowOnOneHalf, Guarded, StaysGuarded, GuardedTo, GuardsTo, Shut};

use crate::halves::half_of;
use crate::row::{link, width};
use candidates::LAID;
use candidates::forced::{forced, next_from};
use rows::Sheet;

// Whether all links of a row are on one half.
fn on_one_half(
    parts: &[u16; LAID],
    n: usize,
    row: usize,
    standing: &[u16; Sheet::LINKS],
    side: u16,
) -> bool
    requires { Rowed parts.now n × (row < n) }
    ensures { result ≡ true → RowOnOneHalf parts.now standing.now side row }
{
    let most = width(parts, n, row);
    let mut halves = 3;
    for k in 0..most {
        let x = link(parts, n, row, k);
        halves = halves & half_of(standing[x], side);
    }
    halves != 0
}

// What an atom has that a breaking atom may take: it stays taken, else it is guarded.
fn guarded(flag: u8) -> u8
    ensures { Guarded result × (flag ≡ 1 → result ≡ 1) }
{
    if flag == 1 {
        return 1;
    }
    2
}

// Where a figure atom may go is guarded.
fn guard(taken: &mut [u8; Sheet::ATOMS], atoms: &[u64; Sheet::ATOMS], n: usize, row: usize)
    requires { (row < sheet_atom_limit) × (n ≤ sheet_atom_limit) × (length taken.old ≡ sheet_atom_limit) }
    ensures { (length taken.new ≡ sheet_atom_limit) × StaysGuarded taken.old taken.new × GuardedTo atoms.now row taken.new n }
{
    let mut next = next_from(atoms, row, 0, n);
    while let Some(t) = next {
        taken[t] = guarded(taken[t]);
        next = next_from(atoms, row, t + 1, n);
    }
}

// The next row: so many rows before it are breaking, and so many with it.
fn guard_row(
    taken: &mut [u8; Sheet::ATOMS],
    breaking: usize,
    parts: &[u16; LAID],
    rows: usize,
    standing: &[u16; Sheet::LINKS],
    side: u16,
    atoms: &[u64; Sheet::ATOMS],
    n: usize,
    row: usize,
) -> usize
    requires { Rowed parts.now rows × (row < rows) × (n ≤ sheet_atom_limit) × (breaking ≤ row) × GuardsTo parts.now standing.now atoms.now n side row taken.old breaking }
    ensures { (result ≤ row + 1) × GuardsTo parts.now standing.now atoms.now n side (row + 1) taken.new result }
{
    if let Some(t) = forced(atoms, row, n) {
        taken[t] = 1;
        return breaking;
    }
    if on_one_half(parts, rows, row, standing, side) {
        return breaking;
    }
    guard(taken, atoms, n, row);
    breaking + 1
}

// How many rows are breaking.
pub(crate) fn guard_rows(
    taken: &mut [u8; Sheet::ATOMS],
    parts: &[u16; LAID],
    rows: usize,
    standing: &[u16; Sheet::LINKS],
    side: u16,
    atoms: &[u64; Sheet::ATOMS],
    n: usize,
) -> usize
    requires { Rowed parts.now rows × (n ≤ sheet_atom_limit) × (length taken.old ≡ sheet_atom_limit) }
    ensures { (result ≤ rows) × GuardsTo parts.now standing.now atoms.now n side rows taken.new result }
{
    let mut breaking = 0;
    for row in 0..rows {
        breaking = guard_row(taken, breaking, parts, rows, standing, side, atoms, n, row);
    }
    breaking
}

// What an atom has that no way may pass where it is guarded.
fn shut_flag(flag: u8) -> u8
    ensures { Guarded flag → result ≡ 1 }
{
    if flag == 2 {
        return 1;
    }
    flag
}

// What is guarded is shut.
pub(crate) fn shut(taken: &mut [u8; Sheet::ATOMS], n: usize)
    requires { (n ≤ sheet_atom_limit) × (length taken.old ≡ sheet_atom_limit) }
    ensures { Shut n taken.old taken.new }
{
    for t in 0..n {
        taken[t] = shut_flag(taken[t]);
    }
}
