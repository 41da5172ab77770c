// The figure links by the halves of the contexts on which they stand. A half is a word: the contexts with a
// digit there, and the others.
ghost use Rattle.std.specs.Prelude.{◌≡◌, ◌+◌, ◌<◌, ◌≤◌};
ghost use Rattle.rows.specs.Limits.{sheet_link_limit};
ghost use Rattle.stepping.specs.Flags.{Within};
ghost use Rattle.ways.specs.Halves.{half_of, Sorts, Crossing};

use crate::SORTED;
use rows::Sheet;

// The half of a link that stands on the contexts of `word`: 1 and 2 for the halves, 3 for both, 0 for none.
pub(crate) fn half_of(word: u16, side: u16) -> usize
    ensures { (result ≡ half_of word side) × (result < 4) }
{
    let first = word & side;
    let second = word ^ first;
    if first == 0 {
        if second == 0 {
            return 0;
        }
        return 2;
    }
    if second == 0 {
        return 1;
    }
    3
}

// 1 at h * LINKS + y where a figure link of half h goes to sheet link y.
pub(crate) fn sorted(
    count: usize,
    standing: &[u16; Sheet::LINKS],
    to: &[u16; Sheet::LINKS],
    none: u16,
    side: u16,
) -> [u8; SORTED]
    requires { (count ≤ sheet_link_limit) × (none ≤ sheet_link_limit + 1) × Within none count to.now }
    ensures { Sorts standing.now to.now none side count result }
{
    let mut flags = [0u8; SORTED];
    for x in 0..count {
        let y = to[x];
        if y != none {
            let h = half_of(standing[x], side);
            flags[h * Sheet::LINKS + ((y - 1) as usize)] = 1;
        }
    }
    flags
}

// How many links with a flag stand on both halves.
pub(crate) fn crossing(
    count: usize,
    standing: &[u16; Sheet::LINKS],
    flags: &[u8; Sheet::LINKS],
    side: u16,
) -> usize
    requires { count ≤ sheet_link_limit }
    ensures { (result ≤ count) × Crossing standing.now flags.now side count result }
{
    let mut n = 0;
    for x in 0..count {
        if flags[x] == 1 {
            if half_of(standing[x], side) == 3 {
                n += 1;
            }
        }
    }
    n
}
