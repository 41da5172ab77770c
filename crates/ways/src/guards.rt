// The sheet links that are guarded: those to which a figure link may go that has a flag and stands on both halves. At
// most one way leads over each.
ghost use Rattle.std.specs.Prelude.{◌≡◌, ℕ, ◌<◌, ◌≤◌, slice_index};
ghost use Rattle.rows.specs.Limits.{sheet_link_limit};
ghost use Rattle.candidates.specs.Words.{InPair};
ghost use Rattle.ways.specs.Nodes.{GuardsLink, GuardsLinksTo};

use crate::halves::half_of;
use candidates::LINK_SETS;
use candidates::pairs::pair_at;
use candidates::words::{ALL, DIGITS};
use rows::Sheet;

// 1 for a link of the set.
pub(crate) fn flag_of(pair: [u64; 2], y: usize) -> u8
    requires { y < sheet_link_limit }
    ensures { InPair pair y → result ≡ 1 }
{
    (pair[y / DIGITS] >> (y % DIGITS) & 1) as u8
}

// 1 for each of the first n links that is in the set.
pub(crate) fn spread(pair: [u64; 2], n: usize) -> [u8; Sheet::LINKS]
    requires { n ≤ sheet_link_limit }
    ensures { (y : ℕ) → y < n → InPair pair y → slice_index result y ≡ 1 }
{
    let mut flags = [0u8; Sheet::LINKS];
    for y in 0..n {
        flags[y] = flag_of(pair, y);
    }
    flags
}

// Where figure link x may go, if it guards links: everywhere, if it is open.
fn guarded_by(
    sets: &[u64; LINK_SETS],
    opens: &[u8; Sheet::LINKS],
    standing: &[u16; Sheet::LINKS],
    flags: &[u8; Sheet::LINKS],
    side: u16,
    x: usize,
) -> [u64; 2]
    requires { x < sheet_link_limit }
    ensures { GuardsLink sets.now opens.now standing.now flags.now side result x }
{
    if flags[x] != 1 {
        return [0, 0];
    }
    if half_of(standing[x], side) != 3 {
        return [0, 0];
    }
    if opens[x] == 1 {
        return [ALL, ALL];
    }
    pair_at(sets, x)
}

// What the first `count` figure links guard.
pub(crate) fn guard_links(
    sets: &[u64; LINK_SETS],
    opens: &[u8; Sheet::LINKS],
    count: usize,
    standing: &[u16; Sheet::LINKS],
    flags: &[u8; Sheet::LINKS],
    side: u16,
) -> [u64; 2]
    requires { count ≤ sheet_link_limit }
    ensures { GuardsLinksTo sets.now opens.now standing.now flags.now side count result }
{
    let mut low = 0u64;
    let mut high = 0u64;
    for x in 0..count {
        let set = guarded_by(sets, opens, standing, flags, side, x);
        low = low | set[0];
        high = high | set[1];
    }
    [low, high]
}
