// Links that stand on two context rows or more.
ghost use Rattle.std.specs.Prelude.{ℕ, ◌<◌, ◌≤◌, ◌≡◌, ◌⊎◌, length};
ghost use Rattle.rows.specs.Limits.{sheet_link_limit};
ghost use Rattle.rows.specs.declared.Sheet.{Sheet as NormalForm};
ghost use Rattle.candidates.specs.Words.{word_digits, In};
ghost use Rattle.candidates.specs.PortSets.{Ports, ContextsIn};
ghost use Rattle.deciding.specs.Several.{OnOne, FlagsBeside, SeveralIn};

use crate::words::has;
use candidates::pairs::without;
use candidates::ports::PortSet;
use candidates::words::{ALL, DIGITS};
use rows::Sheet;

// The links that stand on at most one context row.
fn on_one(contexts: [PortSet; Sheet::CONTEXT_ROOM], rows: usize) -> [u64; 2]
    requires { (links : ℕ) × Ports contexts rows links }
    ensures { OnOne contexts rows result }
{
    let mut fresh = [ALL; 2];
    let mut single = [ALL; 2];
    for c in 0..rows {
        let row = contexts[c];
        let links = row.links;
        let again = without(links, fresh);
        let less = without(single, again);
        single = less;
        let left = without(fresh, links);
        fresh = left;
    }
    single
}

// A number's flag, or 0 where the set has the number.
fn unless_in(flag: u8, word: u64, t: usize) -> u8
    requires { t < word_digits }
    ensures { (result ≡ 1 → flag ≡ 1) × (flag ≡ 1 → (result ≡ 1) ⊎ In word t) }
{
    if has(word, t) {
        return 0;
    }
    flag
}

// The flags of the first `count` links without those of the set.
fn flags_beside(flags: &[u8; Sheet::LINKS], set: [u64; 2], count: usize) -> [u8; Sheet::LINKS]
    requires { count ≤ sheet_link_limit }
    ensures { (length result ≡ sheet_link_limit) × FlagsBeside flags.now set count result }
{
    let mut r = [0u8; Sheet::LINKS];
    for x in 0..count {
        r[x] = unless_in(flags[x], set[x / DIGITS], x % DIGITS);
    }
    r
}

// The flags of the links, which are `count`, that stand on two context rows or more.
pub fn several(
    contexts: [PortSet; Sheet::CONTEXT_ROOM],
    rows: usize,
    count: usize,
    flags: &[u8; Sheet::LINKS],
) -> [u8; Sheet::LINKS]
    requires { Ports contexts rows count }
    ensures { (length result ≡ sheet_link_limit) × ((figure : NormalForm) → ContextsIn figure contexts rows count → SeveralIn figure count flags.now result) }
{
    let set = on_one(contexts, rows);
    flags_beside(flags, set, count)
}
