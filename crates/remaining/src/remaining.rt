// Whether some atom that no figure atom takes has no context left, wherever the open links go.
ghost use Rattle.std.specs.Prelude.{ℕ, ◌+◌, ◌<◌, ◌≤◌, ◌≡◌, true, List, length};
ghost use Rattle.rows.specs.Limits.{sheet_atom_limit, sheet_link_limit};
ghost use Rattle.rows.specs.declared.Sheet.{Sheet as NormalForm};
ghost use Rattle.placing.specs.Net.{Net};
ghost use Rattle.stepping.specs.Chains.{node_count, Falls, Chained};
ghost use Rattle.stepping.specs.Flags.{Within};
ghost use Rattle.stepping.specs.Standing.{Described, Refuses};
ghost use Rattle.remaining.specs.Allowing.{Allows, SettledIn, Together, TornAt, ApartFrom};

use crate::atoms::{cut, shared, some_empty};
use crate::classes::closures;
use crate::joins::closure;
use crate::{ALL, WORDS};
use rows::Sheet;
use stepping::CHAINS;
use stepping::lookup::used_links;

// A link other than x goes to y and has no context in the word.
fn apart_from(
    standing: &[u16; Sheet::LINKS],
    to: &[u16; Sheet::LINKS],
    count: usize,
    y: u16,
    word: u16,
    x: usize,
) -> bool
    requires { count ≤ sheet_link_limit }
    ensures { ApartFrom standing.now to.now count y word x result }
{
    for z in 0..count {
        if z != x {
            if to[z] == y {
                if standing[z] & word == 0 {
                    return true;
                }
            }
        }
    }
    false
}

// Where figure link x goes the atoms keep what is joined to it. True where another link goes there to which it is
// not joined.
fn settled_cut(
    words: &mut [u16; Sheet::ATOMS],
    chains: &[u16; CHAINS],
    standing: &[u16; Sheet::LINKS],
    to: &[u16; Sheet::LINKS],
    flags: &[u8; Sheet::LINKS],
    count: usize,
    none: u16,
    x: usize,
) -> bool
    requires { (count ≤ sheet_link_limit) × (x < count) × (none ≤ sheet_link_limit + 1) × Within none count to.now × (length words.old ≡ sheet_atom_limit) × Falls node_count chains.now }
    ensures { (length words.new ≡ sheet_atom_limit) × (result ≡ true → TornAt standing.now flags.now to.now count none) × ((S : Net) (n : ℕ) → Chained S n chains.now → (taken : List ℕ) (digits : ℕ → ℕ) → SettledIn S taken digits standing.now flags.now to.now count none → Allows S taken digits words.old → Allows S taken digits words.new) }
{
    let y = to[x];
    if y == none {
        return false;
    }
    let word = closure(standing, flags, to, count, y, standing[x]);
    if apart_from(standing, to, count, y, word, x) {
        return true;
    }
    cut(words, chains, (y - 1) as usize, word);
    false
}

// The same for all figure links.
fn settled_cuts(
    words: &mut [u16; Sheet::ATOMS],
    chains: &[u16; CHAINS],
    standing: &[u16; Sheet::LINKS],
    to: &[u16; Sheet::LINKS],
    flags: &[u8; Sheet::LINKS],
    count: usize,
    none: u16,
) -> bool
    requires { (count ≤ sheet_link_limit) × (none ≤ sheet_link_limit + 1) × Within none count to.now × (length words.old ≡ sheet_atom_limit) × Falls node_count chains.now }
    ensures { (length words.new ≡ sheet_atom_limit) × (result ≡ true → TornAt standing.now flags.now to.now count none) × ((S : Net) (n : ℕ) → Chained S n chains.now → (taken : List ℕ) (digits : ℕ → ℕ) → SettledIn S taken digits standing.now flags.now to.now count none → Allows S taken digits words.old → Allows S taken digits words.new) }
{
    for x in 0..count {
        if settled_cut(words, chains, standing, to, flags, count, none, x) {
            return true;
        }
    }
    false
}

// Where no figure link goes the atoms keep what is joined to the words of all of them.
fn unused_cut(
    words: &mut [u16; Sheet::ATOMS],
    chains: &[u16; CHAINS],
    taken: &[u8; Sheet::ATOMS],
    table: &[u16; WORDS],
    used: &[u8; Sheet::LINKS],
    y: usize,
)
    requires { (y < sheet_link_limit) × (length words.old ≡ sheet_atom_limit) × Falls node_count chains.now }
    ensures { (length words.new ≡ sheet_atom_limit) × ((S : Net) (n : ℕ) → Chained S n chains.now → (digits : ℕ → ℕ) → Together S taken.now digits table.now used.now → Allows S taken.now digits words.old → Allows S taken.now digits words.new) }
{
    if used[y] == 1 {
        return;
    }
    let word = shared(words, chains, taken, table, y);
    cut(words, chains, y, word);
}

// The same for all sheet links, once: further rounds were no gain.
fn round(
    words: &mut [u16; Sheet::ATOMS],
    chains: &[u16; CHAINS],
    taken: &[u8; Sheet::ATOMS],
    table: &[u16; WORDS],
    used: &[u8; Sheet::LINKS],
    links: usize,
)
    requires { (links ≤ sheet_link_limit) × (length words.old ≡ sheet_atom_limit) × Falls node_count chains.now }
    ensures { (length words.new ≡ sheet_atom_limit) × ((S : Net) (n : ℕ) → Chained S n chains.now → (digits : ℕ → ℕ) → Together S taken.now digits table.now used.now → Allows S taken.now digits words.old → Allows S taken.now digits words.new) }
{
    for y in 0..links {
        unused_cut(words, chains, taken, table, used, y);
    }
}

// No completion is left.
pub fn refused(
    atoms: usize,
    links: usize,
    count: usize,
    chains: &[u16; CHAINS],
    taken: &[u8; Sheet::ATOMS],
    standing: &[u16; Sheet::LINKS],
    to: &[u16; Sheet::LINKS],
    flags: &[u8; Sheet::LINKS],
) -> bool
    requires { (sheet : NormalForm) × (figure : NormalForm) × Described sheet figure atoms links count chains.now standing.now to.now }
    ensures { (sheet figure : NormalForm) → Described sheet figure atoms links count chains.now standing.now to.now → Refuses sheet figure taken.now to.now flags.now result }
{
    let none = (links + 1) as u16;
    let mut words = [ALL; Sheet::ATOMS];
    if settled_cuts(&mut words, chains, standing, to, flags, count, none) {
        return true;
    }
    let used = used_links(count, to, none);
    let mut table = [0u16; WORDS];
    closures(&mut table, standing, flags, to, count);
    round(&mut words, chains, taken, &table, &used, links);
    some_empty(&words, taken, atoms)
}
