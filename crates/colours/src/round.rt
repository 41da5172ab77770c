// Colours of one net: the first, and from one round to the next.
ghost use Rattle.std.specs.Prelude.{◌≡◌, ℕ, suc, ◌+◌, ◌-◌, ◌%◌, ◌<◌, ◌≤◌, map, length, take, replicate, slice_index};
ghost use Rattle.rows.specs.Limits.{sheet_atom_limit, sheet_link_limit};
ghost use Rattle.rows.specs.declared.Sheet.{Sheet as NormalForm};
ghost use Rattle.network.specs.NetIn.{net_in};
ghost use Rattle.network.specs.Sums.{sum_to};
ghost use Rattle.candidates.specs.Laid.{laid_atom, Rowed, LaidOut};
ghost use Rattle.candidates.specs.Marks.{MarkLinks, MarksIn};
ghost use Rattle.colours.specs.Colours.{pattern, marks_at, around as around_in};
ghost use Rattle.colours.specs.Mixed.{word_size, mixed, mixed_all, mixing, joined_marks};
ghost use Rattle.colours.specs.Arrays.{link_colour, held, Refined};

use crate::atom::{add_around, first_colour, next_colour};
use crate::mix::{SEED, mix};
use candidates::LAID;
use candidates::laid::laid_atom;
use rows::Sheet;
use std::num::wrapping_add_u64;

// The first colours of n atoms, in place of the sizes of their pieces.
pub(crate) fn first_atoms(laid: &[u16; LAID], n: usize, atoms: &mut [u64; Sheet::ATOMS])
    requires { Rowed laid.now n × (length atoms.old ≡ sheet_atom_limit) }
    ensures { (length atoms.new ≡ sheet_atom_limit) × ((t : ℕ) → t < n → slice_index atoms.new t ≡ mixing.atom_first (laid_atom laid.now t).name (slice_index atoms.old t) (pattern (take (laid_atom laid.now t).count (laid_atom laid.now t).links))) }
{
    for t in 0..n {
        let atom = laid_atom(laid, t);
        atoms[t] = first_colour(atom, atoms[t]);
    }
}

// The first colours of links, into a table of zeros: what their marks say.
pub(crate) fn first_links(
    marks: [u16; Sheet::MARK_ROOM],
    marked: &[u16; Sheet::MARK_ROOM],
    n: usize,
    links: &mut [u64; Sheet::LINKS],
)
    requires { MarkLinks marked.now n × (links.old ≡ replicate sheet_link_limit 0) }
    ensures { (length links.new ≡ sheet_link_limit) × ((net : NormalForm) → MarksIn net marks marked.now n → (x : ℕ) → x < sheet_link_limit → slice_index links.new x ≡ joined_marks (marks_at (suc x) (net_in net).marks)) }
{
    for p in 0..n {
        let x = marked[p] as usize;
        links[x - 1] = links[x - 1] | mix(SEED, marks[p] as u64);
    }
}

// What the atoms add to each link, into a table of zeros.
fn add_all<'a>(
    laid: &'a [u16; LAID],
    n: usize,
    atoms: &'a [u64; Sheet::ATOMS],
    around: &mut [u64; Sheet::LINKS],
)
    requires { Rowed laid.now n × (around.old ≡ replicate sheet_link_limit 0) }
    ensures { (length around.new ≡ sheet_link_limit) × ((net : NormalForm) → LaidOut net laid.now n → (x : ℕ) → x < sheet_link_limit → (links : ℕ → ℕ) → slice_index around.new x ≡ around_in mixing (net_in net) (record { of_atom = λ j. slice_index atoms.now (j - 1); of_link = links }) (suc x) % word_size) }
{
    for t in 0..n {
        let atom = laid_atom(laid, t);
        add_around(atom, atoms[t], around);
    }
}

fn next_atoms(
    laid: &[u16; LAID],
    n: usize,
    links: &[u64; Sheet::LINKS],
    atoms: &mut [u64; Sheet::ATOMS],
)
    requires { Rowed laid.now n × (length atoms.old ≡ sheet_atom_limit) }
    ensures { (length atoms.new ≡ sheet_atom_limit) × ((t : ℕ) → t < n → slice_index atoms.new t ≡ mixed_all (slice_index atoms.old t) (map (link_colour links.now) (take (laid_atom laid.now t).count (laid_atom laid.now t).links))) }
{
    for t in 0..n {
        let atom = laid_atom(laid, t);
        atoms[t] = next_colour(atom, atoms[t], links);
    }
}

fn next_links(c: usize, around: &[u64; Sheet::LINKS], links: &mut [u64; Sheet::LINKS])
    requires { (c ≤ sheet_link_limit) × (length links.old ≡ sheet_link_limit) }
    ensures { (length links.new ≡ sheet_link_limit) × ((x : ℕ) → x < c → slice_index links.new x ≡ mixed (slice_index links.old x) (slice_index around.now x)) }
{
    for x in 0..c {
        links[x] = mix(links[x], around[x]);
    }
}

// The colours of the next round.
pub(crate) fn refine(
    laid: &[u16; LAID],
    n: usize,
    c: usize,
    atoms: &mut [u64; Sheet::ATOMS],
    links: &mut [u64; Sheet::LINKS],
)
    requires { Rowed laid.now n × (c ≤ sheet_link_limit) × (length atoms.old ≡ sheet_atom_limit) × (length links.old ≡ sheet_link_limit) }
    ensures { (length atoms.new ≡ sheet_atom_limit) × (length links.new ≡ sheet_link_limit) × Refined laid.now n c atoms.old links.old atoms.new links.new }
{
    let mut around = [0u64; Sheet::LINKS];
    add_all(laid, n, atoms, &mut around);
    next_atoms(laid, n, links, atoms);
    next_links(c, &around, links);
}

// The sum over n atoms and c links.
pub(crate) fn total<'a>(
    n: usize,
    c: usize,
    atoms: &'a [u64; Sheet::ATOMS],
    links: &'a [u64; Sheet::LINKS],
) -> u64
    requires { (n ≤ sheet_atom_limit) × (c ≤ sheet_link_limit) }
    ensures { result ≡ (sum_to (held atoms.now links.now).of_atom n + sum_to (held atoms.now links.now).of_link c) % word_size }
{
    let mut sum = 0u64;
    for t in 0..n {
        sum = wrapping_add_u64(sum, atoms[t]);
    }
    for x in 0..c {
        sum = wrapping_add_u64(sum, links[x]);
    }
    sum
}
