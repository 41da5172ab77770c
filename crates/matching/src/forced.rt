// Figure atoms that have one place to go: they are placed without a try.
ghost use Rattle.std.specs.Prelude.{◌≤◌};
ghost use Rattle.rows.specs.Limits.{sheet_atom_limit};
ghost use Rattle.matching.specs.Search.{Forward};

use candidates::forced::forced;
use rows::Sheet;

// The figure atoms from k on go to their only candidates, as long as they have one. The first that has
// none, or more, is returned.
pub(crate) fn advance(
    atoms: &[u64; Sheet::ATOMS],
    chosen: &mut [u16; Sheet::ATOMS],
    k: usize,
    n: usize,
    m: usize,
) -> usize
    requires { (k ≤ m) × (m ≤ sheet_atom_limit) × (n ≤ sheet_atom_limit) }
    ensures { Forward atoms.now n m k chosen.old result chosen.new }
{
    for i in k..m {
        let Some(t) = forced(atoms, i, n) else {
            return i;
        };
        chosen[i] = (t + 1) as u16;
    }
    m
}
