// The contexts of each figure link as a word. Context k has digit k % CONTEXT_DIGITS; those of a figure have
// digits of their own.
ghost use Rattle.std.specs.Prelude.{ℕ, ◌<◌, ◌≡◌, length};
ghost use Rattle.rows.specs.Limits.{sheet_link_limit};
ghost use Rattle.rows.specs.declared.Sheet.{Sheet as NormalForm};
ghost use Rattle.candidates.specs.Words.{alone};
ghost use Rattle.candidates.specs.PortSets.{Below, Ports, ContextsIn};
ghost use Rattle.stepping.specs.Standing.{digit_of, Standing, Marked};

use candidates::pairs::{first_link, is_empty, without_link};
use candidates::ports::PortSet;
use rows::Sheet;

// How many digits a word of contexts has.
pub const CONTEXT_DIGITS: u16 = 16;

// The word of context k alone.
fn context_word(k: u16) -> u16
    ensures { result ≡ alone (digit_of k) }
{
    1u16 << (k % CONTEXT_DIGITS)
}

// A context, whose word this is, for each link of its set.
fn mark_links(words: &mut [u16; Sheet::LINKS], set: [u64; 2], word: u16)
    requires { Below sheet_link_limit set × (length words.old ≡ sheet_link_limit) }
    ensures { Marked words.old set word words.new }
{
    let mut rest = set;
    while !is_empty(rest) {
        let x = first_link(rest);
        let less = without_link(rest, x);
        rest = less;
        words[x] = words[x] | word;
    }
}

// For each figure link the word of its contexts.
pub fn standing(contexts: [PortSet; Sheet::CONTEXT_ROOM], rows: usize) -> [u16; Sheet::LINKS]
    requires { (links : ℕ) × Ports contexts rows links }
    ensures { (figure : NormalForm) (links : ℕ) → ContextsIn figure contexts rows links → Standing figure result }
{
    let mut words = [0u16; Sheet::LINKS];
    for c in 0..rows {
        let row = contexts[c];
        let links = row.links;
        mark_links(&mut words, links, context_word(row.number));
    }
    words
}
