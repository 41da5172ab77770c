// What is read off one atom, place by place. Atoms that may be turned would be read both ways here, and nowhere else.
ghost use Rattle.std.specs.Prelude.{◌≡◌, ℕ, suc, ◌+◌, ◌%◌, ◌<◌, map, length, take, slice_index};
ghost use Rattle.rows.specs.Limits.{sheet_link_limit};
ghost use Rattle.network.specs.NetIn.{Used};
ghost use Rattle.candidates.specs.Laid.{link_of};
ghost use Rattle.colours.specs.Colours.{first_at, pattern, places_at};
ghost use Rattle.colours.specs.Mixed.{word_size, mixed_all, mixing};
ghost use Rattle.colours.specs.Arrays.{link_colour};

use crate::mix::{SEED, mix};
use rows::{Atom, Sheet};
use std::num::wrapping_add_u64;

// The first place that has the link of place k.
fn first_place(atom: Atom, k: usize) -> usize
    requires { Used sheet_link_limit atom.count atom.links × (k < atom.count) }
    ensures { result ≡ first_at (link_of atom k) (take atom.count atom.links) }
{
    for h in 0..k {
        if atom.links[h] == atom.links[k] {
            return h;
        }
    }
    k
}

// The first colour of an atom: its name, the size of its piece and the pattern of its links.
pub(crate) fn first_colour(atom: Atom, size: u64) -> u64
    requires { Used sheet_link_limit atom.count atom.links }
    ensures { result ≡ mixing.atom_first atom.name size (pattern (take atom.count atom.links)) }
{
    let mut colour = mix(mix(SEED, atom.name as u64), size);
    let count = atom.count as usize;
    for k in 0..count {
        colour = mix(colour, first_place(atom, k) as u64);
    }
    colour
}

// Its next colour: with those of its links.
pub(crate) fn next_colour(atom: Atom, before: u64, links: &[u64; Sheet::LINKS]) -> u64
    requires { Used sheet_link_limit atom.count atom.links }
    ensures { result ≡ mixed_all before (map (link_colour links.now) (take atom.count atom.links)) }
{
    let mut colour = before;
    let count = atom.count as usize;
    for k in 0..count {
        let x = atom.links[k] as usize;
        colour = mix(colour, links[x - 1]);
    }
    colour
}

// What an atom of this colour adds to its links.
pub(crate) fn add_around(atom: Atom, colour: u64, around: &mut [u64; Sheet::LINKS])
    requires { Used sheet_link_limit atom.count atom.links × (length around.old ≡ sheet_link_limit) }
    ensures { (length around.new ≡ sheet_link_limit) × ((sums : ℕ → ℕ) → ((x : ℕ) → x < sheet_link_limit → slice_index around.old x ≡ sums x % word_size) → (x : ℕ) → x < sheet_link_limit → slice_index around.new x ≡ (sums x + places_at (mixing.at_place colour) (suc x) 0 (take atom.count atom.links)) % word_size) }
{
    let count = atom.count as usize;
    for k in 0..count {
        let x = atom.links[k] as usize;
        let more = mix(colour, (k + 1) as u64);
        around[x - 1] = wrapping_add_u64(around[x - 1], more);
    }
}
