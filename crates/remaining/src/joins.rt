// Words of contexts that are unions of classes at a sheet link: a figure link that may go there has all its
// contexts in the word or none.
ghost use Rattle.std.specs.Prelude.{◌≤◌};
ghost use Rattle.rows.specs.Limits.{sheet_link_limit};
ghost use Rattle.remaining.specs.Joining.{Joined, Spread, Closure};

use crate::ALL;
use rows::Sheet;
use stepping::standing::CONTEXT_DIGITS;

// The word with all contexts of a figure link that has some in it, and that may go to y: it has a flag, or goes
// there.
fn joined(flag: u8, at: u16, y: u16, word: u16, kind: u16) -> u16
    ensures { Joined flag at y word kind result }
{
    if word & kind == 0 {
        return word;
    }
    if flag == 1 {
        return word | kind;
    }
    if at == y {
        return word | kind;
    }
    word
}

// The same with the figure links one after the other.
fn spread(
    standing: &[u16; Sheet::LINKS],
    flags: &[u8; Sheet::LINKS],
    to: &[u16; Sheet::LINKS],
    count: usize,
    y: u16,
    word: u16,
) -> u16
    requires { count ≤ sheet_link_limit }
    ensures { Spread standing.now flags.now to.now count y word result }
{
    let mut next = word;
    for x in 0..count {
        next = joined(flags[x], to[x], y, next, standing[x]);
    }
    next
}

// A union of classes at y with all contexts of the word.
pub(crate) fn closure(
    standing: &[u16; Sheet::LINKS],
    flags: &[u8; Sheet::LINKS],
    to: &[u16; Sheet::LINKS],
    count: usize,
    y: u16,
    word: u16,
) -> u16
    requires { count ≤ sheet_link_limit }
    ensures { Closure standing.now flags.now to.now count y word result }
{
    let mut closed = word;
    for n in 0..CONTEXT_DIGITS {
        let next = spread(standing, flags, to, count, y, closed);
        if next == closed {
            return closed;
        }
        closed = next;
    }
    ALL
}
