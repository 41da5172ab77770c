// A figure atom that has one place to go.
ghost use Rattle.std.specs.Prelude.{◌≡◌, ◌<◌, ◌≤◌, length};
ghost use Rattle.rows.specs.Limits.{sheet_atom_limit};
ghost use Rattle.candidates.specs.Words.{In};
ghost use Rattle.candidates.specs.Tables.{AtomsStay};
ghost use Rattle.narrowing.specs.Steps.{Alone};

use candidates::words::{first, minus, one};
use rows::Sheet;

// The figure atoms, of the first m, that may go to a sheet atom of `row`.
fn holders(m: usize, row: u64, atoms: &[u64; Sheet::ATOMS]) -> u64
    requires { m ≤ sheet_atom_limit }
{
    let mut set = 0u64;
    let mut bit = 1u64;
    for j in 0..m {
        if atoms[j] & row != 0 {
            set = set | bit;
        }
        bit = bit << 1;
    }
    set
}

// The sheet atoms of `row` are taken from the first m figure atoms; what went is added to `lost`. Every turn stores,
// so that two are done at once.
fn strip(row: u64, m: usize, atoms: &mut [u64; Sheet::ATOMS], lost: &mut [u64; Sheet::ATOMS])
    requires { m ≤ sheet_atom_limit }
    ensures { (length atoms.new ≡ length atoms.old) × AtomsStay atoms.old atoms.new (λ j u. ¬ In row u) }
{
    for j in 0..m {
        let before = atoms[j];
        atoms[j] = minus(before, row);
        lost[j] = lost[j] | (before & row);
    }
}

// Where figure atom i has one place to go, the others lose it. Those that did.
pub(crate) fn alone(
    i: usize,
    m: usize,
    atoms: &mut [u64; Sheet::ATOMS],
    lost: &mut [u64; Sheet::ATOMS],
) -> u64
    requires { (i < m) × (m ≤ sheet_atom_limit) }
    ensures { AtomsStay atoms.old atoms.new (Alone atoms.old i) }
{
    let row = atoms[i];
    if row == 0 {
        return 0;
    }
    if minus(row, one(first(row))) != 0 {
        return 0;
    }
    let others = minus(holders(m, row, atoms), one(i));
    if others != 0 {
        strip(row, m, atoms, lost);
        atoms[i] = row;
        lost[i] = 0;
    }
    others
}

// Sheet atoms that two or more of the first m figure atoms may go to.
fn wanted_twice(m: usize, atoms: &[u64; Sheet::ATOMS]) -> u64
    requires { m ≤ sheet_atom_limit }
{
    let mut once = 0u64;
    let mut twice = 0u64;
    for j in 0..m {
        let row = atoms[j];
        twice = twice | (once & row);
        once = once | row;
    }
    twice
}

fn at_most_one(row: u64) -> bool {
    if row == 0 {
        return true;
    }
    minus(row, one(first(row))) == 0
}

// The figure atoms, of the first m, that have one place to go, which others have too, or none.
pub(crate) fn contested(m: usize, atoms: &[u64; Sheet::ATOMS]) -> u64
    requires { m ≤ sheet_atom_limit }
{
    let twice = wanted_twice(m, atoms);
    let mut set = 0u64;
    let mut bit = 1u64;
    for j in 0..m {
        let row = atoms[j];
        if minus(row, twice) == 0 && at_most_one(row) {
            set = set | bit;
        }
        bit = bit << 1;
    }
    set
}
