// The words of the atoms on one sheet link.
ghost use Rattle.std.specs.Prelude.{ℕ, ◌<◌, ◌≤◌, ◌≡◌, List, length};
ghost use Rattle.rows.specs.Limits.{sheet_atom_limit, sheet_link_limit};
ghost use Rattle.placing.specs.Net.{Net};
ghost use Rattle.stepping.specs.Chains.{node_count, Falls, Chained};
ghost use Rattle.remaining.specs.Allowing.{Allows, AllIn, SharedAt, KeptBy, SomeEmpty};

use crate::classes::closure_of;
use crate::{ALL, WORDS};
use rows::Sheet;
use stepping::CHAINS;

// Those of all atoms on link y lose what is not in the word.
pub(crate) fn cut(words: &mut [u16; Sheet::ATOMS], chains: &[u16; CHAINS], y: usize, word: u16)
    requires { (y < sheet_link_limit) × (length words.old ≡ sheet_atom_limit) × Falls node_count chains.now }
    ensures { (length words.new ≡ sheet_atom_limit) × ((S : Net) (n : ℕ) → Chained S n chains.now → (taken : List ℕ) (digits : ℕ → ℕ) → AllIn S taken digits y word → Allows S taken digits words.old → Allows S taken digits words.new) }
{
    let mut v = chains[y] as usize;
    while v != 0 {
        let i = (v - Sheet::LINKS) / Sheet::MOST_LINKS;
        words[i] = words[i] & word;
        v = chains[v] as usize;
    }
}

// What is in the word and, unless the atom is taken, in the union of classes too.
fn kept_by(word: u16, taken: u8, closed: u16) -> u16
    ensures { KeptBy word taken closed result }
{
    if taken == 1 {
        return word;
    }
    word & closed
}

// What is in the union of classes of each atom on y that is not taken.
pub(crate) fn shared(
    words: &[u16; Sheet::ATOMS],
    chains: &[u16; CHAINS],
    taken: &[u8; Sheet::ATOMS],
    table: &[u16; WORDS],
    y: usize,
) -> u16
    requires { (y < sheet_link_limit) × Falls node_count chains.now }
    ensures { (S : Net) (n : ℕ) → Chained S n chains.now → SharedAt S taken.now words.now table.now y result }
{
    let mut word = ALL;
    let mut v = chains[y] as usize;
    while v != 0 {
        let i = (v - Sheet::LINKS) / Sheet::MOST_LINKS;
        word = kept_by(word, taken[i], closure_of(table, words[i]));
        v = chains[v] as usize;
    }
    word
}

// Some atom that is not taken has an empty word.
pub(crate) fn some_empty(
    words: &[u16; Sheet::ATOMS],
    taken: &[u8; Sheet::ATOMS],
    atoms: usize,
) -> bool
    requires { atoms ≤ sheet_atom_limit }
    ensures { SomeEmpty words.now taken.now atoms result }
{
    for j in 0..atoms {
        if taken[j] != 1 {
            if words[j] == 0 {
                return true;
            }
        }
    }
    false
}
