// The sheet atoms that a figure atom may go to: the first of them, and the only one.
ghost use Rattle.std.specs.Prelude.{◌≡◌, ◌↔◌, ℕ, ◌<◌, ◌≤◌, get_or, Some};
ghost use Rattle.rows.specs.Limits.{sheet_atom_limit};
ghost use Rattle.candidates.specs.Words.{word_digits};
ghost use Rattle.candidates.specs.Forced.{FirstFrom, Only};

use crate::words::{DIGITS, first, minus, one};
use rows::Sheet;

// The first number from t on that is in the set.
pub fn first_from(s: u64, t: usize) -> Option<usize>
    requires { t ≤ word_digits }
    ensures { FirstFrom s t word_digits result }
{
    if t >= DIGITS {
        return None;
    }
    let rest = s >> t;
    if rest == 0 {
        return None;
    }
    Some(t + u64::trailing_zeros(rest) as usize)
}

// The first of the sheet atoms from t on and below n that figure atom k may go to.
pub fn next_from(atoms: &[u64; Sheet::ATOMS], k: usize, t: usize, n: usize) -> Option<usize>
    requires { (k < sheet_atom_limit) × (t ≤ word_digits) }
    ensures { FirstFrom (get_or atoms.now k 0) t n result }
{
    match first_from(atoms[k], t) {
        Some(u) if u < n => Some(u),
        _ => None,
    }
}

// The one sheet atom of the first n that figure atom k may go to, where there is just one.
pub fn forced(atoms: &[u64; Sheet::ATOMS], k: usize, n: usize) -> Option<usize>
    requires { k < sheet_atom_limit }
    ensures { (t : ℕ) → (result ≡ Some t) ↔ Only atoms.now k n t }
{
    let row = atoms[k];
    if row == 0 {
        return None;
    }
    let t = first(row);
    if minus(row, one(t)) != 0 {
        return None;
    }
    if n <= t {
        return None;
    }
    Some(t)
}
