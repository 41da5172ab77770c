// Unions of classes at a sheet link to which no settled link goes, for all words of a figure's contexts.
ghost use Rattle.std.specs.Prelude.{ℕ, ◌<◌, ◌≤◌, ◌≡◌, length, get_or, replicate};
ghost use Rattle.rows.specs.Limits.{sheet_link_limit};
ghost use Rattle.remaining.specs.Joining.{word_count, Closure, closure_in};

use crate::joins::closure;
use crate::{ALL, WORDS};
use candidates::words::{first, minus, one};
use rows::Sheet;

// That of a word.
pub(crate) fn closure_of(table: &[u16; WORDS], word: u16) -> u16
    ensures { result ≡ closure_in table.now word }
{
    let w = word as usize;
    if w < WORDS {
        return table[w];
    }
    ALL
}

// That of w, by those of smaller words.
fn closure_at(
    table: &[u16; WORDS],
    standing: &[u16; Sheet::LINKS],
    flags: &[u8; Sheet::LINKS],
    to: &[u16; Sheet::LINKS],
    count: usize,
    w: usize,
) -> u16
    requires { (count ≤ sheet_link_limit) × (0 < w) × (w < word_count) × ((v : ℕ) → v < w → Closure standing.now flags.now to.now count 0 v (get_or table.now v 0)) }
    ensures { Closure standing.now flags.now to.now count 0 w result }
{
    let word = w as u64;
    let rest = minus(word, one(first(word)));
    if rest == 0 {
        return closure(standing, flags, to, count, 0, w as u16);
    }
    let head = minus(word, rest);
    table[head as usize] | table[rest as usize]
}

// All of them.
pub(crate) fn closures(
    table: &mut [u16; WORDS],
    standing: &[u16; Sheet::LINKS],
    flags: &[u8; Sheet::LINKS],
    to: &[u16; Sheet::LINKS],
    count: usize,
)
    requires { (count ≤ sheet_link_limit) × (table.old ≡ replicate word_count 0) }
    ensures { (word : ℕ) → Closure standing.now flags.now to.now count 0 word (closure_in table.new word) }
{
    for w in 1..WORDS {
        let closed = closure_at(table, standing, flags, to, count, w);
        table[w] = closed;
    }
}
