// The atom, the context and the ports of a row, as the arrays of a text have them.
ghost use Rattle.std.specs.Prelude.{◌≡◌, ◌<◌, drop};
ghost use Rattle.rows.specs.Format.{context_bound};
ghost use Rattle.rows.specs.Entry.{Ranged, is_context, atom_by, context_by, ports_with, ports_by};

use crate::row::Row;
use crate::{Atom, Context, Sheet};

// The links that a symbol or blank row may have; those past its count are 0.
pub(crate) fn row_links(nums: [u16; Sheet::FIELDS]) -> [u16; Sheet::MOST_LINKS]
    ensures { result ≡ drop 2 nums }
{
    let mut links = [0u16; Sheet::MOST_LINKS];
    let mut k = 0;
    while k < Sheet::MOST_LINKS {
        links[k] = nums[k + 2];
        k += 1;
    }
    links
}

// The atom of a symbol row, and of any other row none.
pub fn atom_of(row: Row) -> Atom
    ensures { result ≡ atom_by row }
{
    if row.letter != Row::ATOM {
        return Atom::none();
    }
    let nums = row.nums;
    let links = row_links(nums);
    Atom {
        name: nums[0],
        count: nums[1],
        links,
    }
}

// Whether a row of this letter is a blank row or a head.
pub fn is_context(letter: usize) -> bool
    ensures { result ≡ is_context letter }
{
    if letter == Row::CONTEXT {
        return true;
    }
    letter == Row::HEAD
}

// The context of a blank row or a head, which is the text's row `at`, and of any other row none.
pub fn context_of(row: Row, at: u16) -> Context
    ensures { result ≡ context_by row at }
{
    if !is_context(row.letter) {
        return Context::none();
    }
    let nums = row.nums;
    let links = row_links(nums);
    Context {
        number: nums[0],
        count: nums[1],
        links,
        row: at,
    }
}

// The table of port counts with that of a number, unless it has one.
pub(crate) fn ports_with(
    ports: [u16; Sheet::NUMBERS],
    number: usize,
    count: u16,
) -> [u16; Sheet::NUMBERS]
    requires { number < context_bound }
    ensures { result ≡ ports_with ports number count }
{
    let mut table = ports;
    if table[number] == 0 {
        table[number] = count;
    }
    table
}

// The table of port counts with that of a row.
pub fn row_ports(ports: [u16; Sheet::NUMBERS], row: Row) -> [u16; Sheet::NUMBERS]
    requires { Ranged row }
    ensures { result ≡ ports_by row ports }
{
    if !is_context(row.letter) {
        return ports;
    }
    let nums = row.nums;
    ports_with(ports, nums[0] as usize, nums[1] + 1)
}
