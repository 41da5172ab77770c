// Sheet atoms that are like a figure atom.
ghost use Rattle.std.specs.Prelude.{◌≡◌, true, ℕ, ◌<◌, ◌≤◌, length};
ghost use Rattle.rows.specs.Format.{most_links};
ghost use Rattle.rows.specs.Limits.{sheet_atom_limit, sheet_link_limit};
ghost use Rattle.network.specs.NetIn.{Used};
ghost use Rattle.candidates.specs.Laid.{laid_atom, Rowed};
ghost use Rattle.candidates.specs.Words.{In};
ghost use Rattle.candidates.specs.Tables.{AtomIn};
ghost use Rattle.starting.specs.Steps.{Echoes, Alike};

use candidates::LAID;
use candidates::laid::laid_atom;
use candidates::words::one;
use rows::{Atom, Sheet};

// Where an earlier link of the figure atom `here` is its link k, so it is with the sheet atom `there`.
fn echoes(here: Atom, there: Atom, k: usize) -> bool
    requires { k < most_links }
    ensures { Echoes here there k → result ≡ true }
{
    (0..k).all(|h| here.links[h] != here.links[k] || there.links[h] == there.links[k])
}

// Where links of the figure atom `here` are equal, so are those of the sheet atom `there`.
fn echoes_all(here: Atom, there: Atom) -> bool
    requires { Used sheet_link_limit here.count here.links }
    ensures { ((k : ℕ) → k < here.count → Echoes here there k) → result ≡ true }
{
    for k in 0..here.count as usize {
        if !echoes(here, there, k) {
            return false;
        }
    }
    true
}

// Whether link k of an atom is one of those before it.
fn is_again(atom: Atom, k: usize) -> bool
    requires { k < most_links }
{
    let link = atom.links[k];
    atom.links[..k].contains(&link)
}

// Whether an atom has a link at two places.
fn repeats(atom: Atom) -> bool
    requires { Used sheet_link_limit atom.count atom.links }
{
    (0..atom.count as usize).any(|k| is_again(atom, k))
}

// Whether sheet atom t may be like the figure atom `here`: the same name, as many links, and equal links where the
// figure atom has equal links. The last is looked at only where it has a link `twice`.
fn alike(sheet: &[u16; LAID], t: usize, here: Atom, twice: bool) -> bool
    requires { (t < sheet_atom_limit) × Used sheet_link_limit here.count here.links }
    ensures { Alike here (laid_atom sheet.now t) → result ≡ true }
{
    let at = t * Sheet::FIELDS;
    if sheet[at] != here.name {
        return false;
    }
    if sheet[at + 1] != here.count {
        return false;
    }
    if !twice {
        return true;
    }
    let there = laid_atom(sheet, t);
    echoes_all(here, there)
}

// The sheet atoms, of the first n, that are like `here`.
fn alike_to(sheet: &[u16; LAID], n: usize, here: Atom) -> u64
    requires { (n ≤ sheet_atom_limit) × Used sheet_link_limit here.count here.links }
    ensures { (t : ℕ) → t < n → Alike here (laid_atom sheet.now t) → In result t }
{
    let twice = repeats(here);
    let mut row = 0u64;
    for t in 0..n {
        if alike(sheet, t, here, twice) {
            row = row | one(t);
        }
    }
    row
}

// Figure atoms to sheet atoms that are alike.
pub(crate) fn start_atoms<'a>(
    sheet: &'a [u16; LAID],
    n: usize,
    figure: &'a [u16; LAID],
    m: usize,
    atoms: &mut [u64; Sheet::ATOMS],
)
    requires { Rowed sheet.now n × Rowed figure.now m × (length atoms.old ≡ sheet_atom_limit) }
    ensures { (i t : ℕ) → i < m → t < n → Alike (laid_atom figure.now i) (laid_atom sheet.now t) → AtomIn atoms.new i t }
{
    for i in 0..m {
        let here = laid_atom(figure, i);
        atoms[i] = alike_to(sheet, n, here);
    }
}
