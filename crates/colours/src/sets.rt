// Sheet atoms and links of the same colours.
ghost use Rattle.std.specs.Prelude.{◌≡◌, ℕ, ◌*◌, ◌<◌, ◌≤◌, length, slice_index};
ghost use Rattle.rows.specs.Limits.{sheet_atom_limit, sheet_link_limit};
ghost use Rattle.candidates.specs.Words.{In, InPair};
ghost use Rattle.candidates.specs.Tables.{AtomIn, LinkIn};

use candidates::LINK_SETS;
use candidates::pairs::{set_pair, with};
use candidates::words::one;
use rows::Sheet;

// The atoms, of the first n, that have this colour.
fn atoms_of(colours: &[u64; Sheet::ATOMS], n: usize, colour: u64) -> u64
    requires { n ≤ sheet_atom_limit }
    ensures { (t : ℕ) → t < n → colour ≡ slice_index colours.now t → In result t }
{
    let mut row = 0u64;
    for t in 0..n {
        if colours[t] == colour {
            row = row | one(t);
        }
    }
    row
}

// The links, of the first n, that have this colour.
fn links_of(colours: &[u64; Sheet::LINKS], n: usize, colour: u64) -> [u64; 2]
    requires { n ≤ sheet_link_limit }
    ensures { (y : ℕ) → y < n → colour ≡ slice_index colours.now y → InPair result y }
{
    let mut pair = [0u64; 2];
    for y in 0..n {
        if colours[y] == colour {
            let more = with(pair, y);
            pair = more;
        }
    }
    pair
}

// The first m figure atoms to those of the first n sheet atoms that have their colours.
pub(crate) fn atom_sets<'a>(
    sheet: &'a [u64; Sheet::ATOMS],
    n: usize,
    figure: &'a [u64; Sheet::ATOMS],
    m: usize,
    atoms: &mut [u64; Sheet::ATOMS],
)
    requires { (n ≤ sheet_atom_limit) × (m ≤ sheet_atom_limit) × (length atoms.old ≡ sheet_atom_limit) }
    ensures { (i t : ℕ) → i < m → t < n → slice_index figure.now i ≡ slice_index sheet.now t → AtomIn atoms.new i t }
{
    for i in 0..m {
        atoms[i] = atoms_of(sheet, n, figure[i]);
    }
}

// The same for links.
pub(crate) fn link_sets<'a>(
    sheet: &'a [u64; Sheet::LINKS],
    n: usize,
    figure: &'a [u64; Sheet::LINKS],
    m: usize,
    links: &mut [u64; LINK_SETS],
)
    requires { (n ≤ sheet_link_limit) × (m ≤ sheet_link_limit) × (length links.old ≡ sheet_link_limit * 2) }
    ensures { (x y : ℕ) → x < m → y < n → slice_index figure.now x ≡ slice_index sheet.now y → LinkIn links.new x y }
{
    for x in 0..m {
        let pair = links_of(sheet, n, figure[x]);
        set_pair(links, x, pair);
    }
}
