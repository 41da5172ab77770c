// Sets of links, as pairs of words: the first has those below `DIGITS`.
ghost use Rattle.std.specs.Prelude.{◌≡◌, false, [], ◌∷◌, ◌+◌, ◌*◌, ◌<◌, get_or, set};
ghost use Rattle.rows.specs.Limits.{sheet_link_limit};
ghost use Rattle.candidates.specs.Words.{pair_digits, InPair, empty_pair, common_pair, fewer_pair, with_link, without_link};

use crate::LINK_SETS;
use crate::words::{DIGITS, first, minus, one};

// The set of link x in the table.
pub fn pair_at(links: &[u64; LINK_SETS], x: usize) -> [u64; 2]
    requires { x < sheet_link_limit }
    ensures { result ≡ get_or links.now (x * 2) 0 ∷ get_or links.now (x * 2 + 1) 0 ∷ [] }
{
    [links[x * 2], links[x * 2 + 1]]
}

pub fn set_pair(links: &mut [u64; LINK_SETS], x: usize, pair: [u64; 2])
    requires { x < sheet_link_limit }
    ensures { links.new ≡ set (set links.old (x * 2) (get_or pair 0 0)) (x * 2 + 1) (get_or pair 1 0) }
{
    links[x * 2] = pair[0];
    links[x * 2 + 1] = pair[1];
}

// A set with link y.
pub fn with(pair: [u64; 2], y: usize) -> [u64; 2]
    requires { y < sheet_link_limit }
    ensures { result ≡ with_link pair y }
{
    let bit = one(y % DIGITS);
    if y < DIGITS {
        return [pair[0] | bit, pair[1]];
    }
    [pair[0], pair[1] | bit]
}

pub fn common(a: [u64; 2], b: [u64; 2]) -> [u64; 2]
    ensures { result ≡ common_pair a b }
{
    [a[0] & b[0], a[1] & b[1]]
}

pub fn without(a: [u64; 2], b: [u64; 2]) -> [u64; 2]
    ensures { result ≡ fewer_pair a b }
{
    [minus(a[0], b[0]), minus(a[1], b[1])]
}

pub fn is_empty(a: [u64; 2]) -> bool
    ensures { result ≡ empty_pair a }
{
    a[0] | a[1] == 0
}

// The first link of a set that has one.
pub fn first_link(pair: [u64; 2]) -> usize
    requires { empty_pair pair ≡ false }
    ensures { (result < pair_digits) × InPair pair result }
{
    if pair[0] != 0 {
        return first(pair[0]);
    }
    DIGITS + first(pair[1])
}

// A set without link y.
pub fn without_link(pair: [u64; 2], y: usize) -> [u64; 2]
    requires { y < pair_digits }
    ensures { result ≡ without_link pair y }
{
    let bit = one(y % DIGITS);
    if y < DIGITS {
        return [minus(pair[0], bit), pair[1]];
    }
    [pair[0], minus(pair[1], bit)]
}
