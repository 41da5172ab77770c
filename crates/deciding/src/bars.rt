// Sheet links that are barred to figure links, as a table of sets. All are counted from 0.
ghost use Rattle.std.specs.Prelude.{◌<◌, ◌≤◌, ◌≡◌, true, ◌↔◌};
ghost use Rattle.rows.specs.Limits.{sheet_link_limit};
ghost use Rattle.candidates.specs.Tables.{LinkIn};
ghost use Rattle.deciding.specs.Bars.{BarredTo};

use crate::words::has;
use candidates::LINK_SETS;
use candidates::pairs::{pair_at, set_pair, with};
use candidates::words::DIGITS;
use rows::Sheet;

// Sheet link y is barred to figure link x.
pub fn barred(bars: &[u64; LINK_SETS], x: usize, y: usize) -> bool
    requires { (x < sheet_link_limit) × (y < sheet_link_limit) }
    ensures { (result ≡ true) ↔ LinkIn bars.now x y }
{
    has(bars[x * 2 + y / DIGITS], y % DIGITS)
}

// y is barred to z, where z is of the kind of x.
fn bar_alike(bars: &mut [u64; LINK_SETS], kinds: &[u16; Sheet::LINKS], x: usize, z: usize, y: usize)
    requires { (x < sheet_link_limit) × (z < sheet_link_limit) × (y < sheet_link_limit) }
    ensures { BarredTo kinds.now x y bars.old bars.new }
{
    if kinds[z] != kinds[x] {
        return;
    }
    let pair = pair_at(bars, z);
    set_pair(bars, z, with(pair, y));
}

// y is barred to x and to all links of its kind.
pub fn bar(
    bars: &mut [u64; LINK_SETS],
    kinds: &[u16; Sheet::LINKS],
    count: usize,
    x: usize,
    y: usize,
)
    requires { (count ≤ sheet_link_limit) × (x < count) × (y < sheet_link_limit) }
    ensures { BarredTo kinds.now x y bars.old bars.new }
{
    for z in 0..count {
        bar_alike(bars, kinds, x, z, y);
    }
}
