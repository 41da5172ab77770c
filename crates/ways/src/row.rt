// The links of a row of laid-out atoms, counted from 0.
ghost use Rattle.std.specs.Prelude.{◌≡◌, suc, ◌+◌, ◌<◌, ◌≤◌};
ghost use Rattle.rows.specs.Format.{most_links};
ghost use Rattle.rows.specs.Limits.{sheet_link_limit};
ghost use Rattle.candidates.specs.Laid.{laid_at, Rowed};
ghost use Rattle.ways.specs.Flow.{place_count};

use crate::trail::wide;
use candidates::LAID;
use rows::Sheet;

// How many links it has.
pub(crate) fn width(parts: &[u16; LAID], n: usize, row: usize) -> usize
    requires { Rowed parts.now n × (row < n) }
    ensures { (result ≡ laid_at parts.now row 1) × (result ≤ most_links) }
{
    wide(parts[row * Sheet::FIELDS + 1])
}

// The link at place k.
pub(crate) fn link(parts: &[u16; LAID], n: usize, row: usize, k: usize) -> usize
    requires { Rowed parts.now n × (row < n) × (k < laid_at parts.now row 1) }
    ensures { (laid_at parts.now row (2 + k) ≡ suc result) × (result < sheet_link_limit) }
{
    let x = wide(parts[row * Sheet::FIELDS + (2 + k)]);
    x - 1
}

// The number from 0 of a link from 1, whatever stands there.
fn below(y: usize) -> usize
    requires { y < 65536 }
    ensures { result < sheet_link_limit }
{
    if y == 0 {
        return 0;
    }
    if Sheet::LINKS < y {
        return 0;
    }
    y - 1
}

// The link of a place; places are counted atom by atom.
pub(crate) fn link_at(laid: &[u16; LAID], place: usize) -> usize
    requires { place < place_count }
    ensures { result < sheet_link_limit }
{
    let row = place / Sheet::MOST_LINKS;
    below(wide(laid[row * Sheet::FIELDS + (2 + place % Sheet::MOST_LINKS)]))
}
