// The atoms of a net in one array of numbers, which can be lent: for each its name, its count and its
// links.
ghost use Rattle.std.specs.Prelude.{◌≡◌, ◌≢◌, ℕ, ◌+◌, ◌*◌, ◌≤◌, ◌<◌, length, get_or};
ghost use Rattle.rows.specs.Format.{most_links, field_count};
ghost use Rattle.rows.specs.Limits.{sheet_atom_limit};
ghost use Rattle.network.specs.NetIn.{Fit, atom_at};
ghost use Rattle.candidates.specs.Laid.{laid_at, laid_atom};

use crate::LAID;
use rows::{Atom, Sheet};

// Atom i, counted from 0.
pub fn laid_atom(laid: &[u16; LAID], i: usize) -> Atom
    requires { i < sheet_atom_limit }
    ensures { result ≡ laid_atom laid.now i }
{
    let at = i * Sheet::FIELDS;
    let name = laid[at];
    let count = laid[at + 1];
    let mut links = [0u16; Sheet::MOST_LINKS];
    for k in 0..Sheet::MOST_LINKS {
        links[k] = laid[at + (2 + k)];
    }
    Atom { name, count, links }
}

// Links into row i, and nothing else.
fn lay_links(links: [u16; Sheet::MOST_LINKS], i: usize, laid: &mut [u16; LAID])
    requires { (i < sheet_atom_limit) × (length links ≡ most_links) × (length laid.old ≡ sheet_atom_limit * field_count) }
    ensures { (length laid.new ≡ sheet_atom_limit * field_count) × ((k : ℕ) → k < most_links → laid_at laid.new i (2 + k) ≡ get_or links k 0) × ((q : ℕ) → ((k : ℕ) → k < most_links → q ≢ i * field_count + (2 + k)) → get_or laid.new q 0 ≡ get_or laid.old q 0) }
{
    for k in 0..Sheet::MOST_LINKS {
        laid[i * Sheet::FIELDS + (2 + k)] = links[k];
    }
}

// An atom into row i, and nothing else.
fn lay_atom(atom: Atom, i: usize, laid: &mut [u16; LAID])
    requires { (i < sheet_atom_limit) × (length atom.links ≡ most_links) × (length laid.old ≡ sheet_atom_limit * field_count) }
    ensures { (length laid.new ≡ sheet_atom_limit * field_count) × (laid_atom laid.new i ≡ atom) × ((q : ℕ) → ((k : ℕ) → k < field_count → q ≢ i * field_count + k) → get_or laid.new q 0 ≡ get_or laid.old q 0) }
{
    let at = i * Sheet::FIELDS;
    let links = atom.links;
    laid[at] = atom.name;
    laid[at + 1] = atom.count;
    lay_links(links, i, laid);
}

// The atoms of a net in their order, into the first rows.
pub fn lay(net: Sheet, laid: &mut [u16; LAID])
    requires { Fit net × (length laid.old ≡ sheet_atom_limit * field_count) }
    ensures { (length laid.new ≡ sheet_atom_limit * field_count) × ((i : ℕ) → i < net.atom_count → laid_atom laid.new i ≡ atom_at net i) × ((q : ℕ) → net.atom_count * field_count ≤ q → get_or laid.new q 0 ≡ get_or laid.old q 0) }
{
    for i in 0..net.atom_count {
        let atom = net.atoms[i];
        lay_atom(atom, i, laid);
    }
}
