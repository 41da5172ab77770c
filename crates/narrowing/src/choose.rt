// A choice of the search: a figure atom goes to a sheet atom.
ghost use Rattle.std.specs.Prelude.{◌≡◌, ◌<◌, get_or, set};
ghost use Rattle.std.specs.Int.Bits.{bit_and};
ghost use Rattle.rows.specs.Limits.{sheet_atom_limit};
ghost use Rattle.candidates.specs.Words.{alone, fewer};

use candidates::words::{minus, one};
use rows::Sheet;

// Figure atom k goes to sheet atom t alone, if it may go there. What it lost.
pub fn choose(k: usize, t: usize, atoms: &mut [u64; Sheet::ATOMS]) -> u64
    requires { (k < sheet_atom_limit) × (t < sheet_atom_limit) }
    ensures lost { result ≡ fewer (get_or atoms.old k 0) (alone t) }
    ensures left { atoms.new ≡ set atoms.old k (bit_and (get_or atoms.old k 0) (alone t)) }
{
    let row = atoms[k];
    atoms[k] = row & one(t);
    minus(row, one(t))
}
