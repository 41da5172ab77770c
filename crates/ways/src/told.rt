// Where figure links surely go at a search node: a link of a figure atom, or with a mark, that has one place only. A link
// that no figure atom has, and no mark is on, is open: its set says nothing of it.
ghost use Rattle.std.specs.Prelude.{◌≡◌, ℕ, suc, ◌<◌, ◌≤◌, ◌⊎◌, List, length, IfSome};
ghost use Rattle.rows.specs.Limits.{sheet_link_limit};
ghost use Rattle.candidates.specs.Laid.{Rowed};
ghost use Rattle.candidates.specs.Marks.{MarkLinks};
ghost use Rattle.ways.specs.Nodes.{OnRow, OnMark, OnlyLink, Tells};

use crate::row::{link, width};
use candidates::pairs::{first_link, is_empty, pair_at, without_link};
use candidates::{LAID, LINK_SETS};
use rows::Sheet;

// The only link of the set of link x, if it has just one.
fn only_link(sets: &[u64; LINK_SETS], x: usize) -> Option<usize>
    requires { x < sheet_link_limit }
    ensures { IfSome result (λ y. OnlyLink sets.now x (suc y)) }
{
    let set = pair_at(sets, x);
    if is_empty(set) {
        return None;
    }
    let y = first_link(set);
    let rest = without_link(set, y);
    if !is_empty(rest) {
        return None;
    }
    Some(y)
}

// Link x, of a row or with a mark, is not open; it is told, if it has one place only.
fn tell(
    to: &mut [u16; Sheet::LINKS],
    flags: &mut [u8; Sheet::LINKS],
    opens: &mut [u8; Sheet::LINKS],
    sets: &[u64; LINK_SETS],
    links: usize,
    x: usize,
)
    requires { (x < sheet_link_limit) × (links ≤ sheet_link_limit) × (length to.old ≡ sheet_link_limit) × (length flags.old ≡ sheet_link_limit) × (length opens.old ≡ sheet_link_limit) }
    ensures { (length to.new ≡ sheet_link_limit) × (length flags.new ≡ sheet_link_limit) × (length opens.new ≡ sheet_link_limit) × ((parts : List ℕ) (n : ℕ) (marked : List ℕ) (m : ℕ) → OnRow parts n x ⊎ OnMark marked m x → Tells parts n marked m sets.now (suc links) to.old flags.old opens.old → Tells parts n marked m sets.now (suc links) to.new flags.new opens.new) }
{
    opens[x] = 0;
    if let Some(y) = only_link(sets, x) {
        if y < links {
            to[x] = (y + 1) as u16;
            flags[x] = 0;
        }
    }
}

// The links of a row.
fn tell_row(
    to: &mut [u16; Sheet::LINKS],
    flags: &mut [u8; Sheet::LINKS],
    opens: &mut [u8; Sheet::LINKS],
    sets: &[u64; LINK_SETS],
    links: usize,
    parts: &[u16; LAID],
    n: usize,
    row: usize,
)
    requires { Rowed parts.now n × (row < n) × (links ≤ sheet_link_limit) × (length to.old ≡ sheet_link_limit) × (length flags.old ≡ sheet_link_limit) × (length opens.old ≡ sheet_link_limit) }
    ensures { (length to.new ≡ sheet_link_limit) × (length flags.new ≡ sheet_link_limit) × (length opens.new ≡ sheet_link_limit) × ((marked : List ℕ) (m : ℕ) → Tells parts.now n marked m sets.now (suc links) to.old flags.old opens.old → Tells parts.now n marked m sets.now (suc links) to.new flags.new opens.new) }
{
    let most = width(parts, n, row);
    for k in 0..most {
        let x = link(parts, n, row, k);
        tell(to, flags, opens, sets, links, x);
    }
}

// The links of all rows, from a table of none and one of flags.
pub(crate) fn tell_links(
    to: &mut [u16; Sheet::LINKS],
    flags: &mut [u8; Sheet::LINKS],
    opens: &mut [u8; Sheet::LINKS],
    sets: &[u64; LINK_SETS],
    links: usize,
    parts: &[u16; LAID],
    n: usize,
)
    requires { Rowed parts.now n × (links ≤ sheet_link_limit) × (length to.old ≡ sheet_link_limit) × (length flags.old ≡ sheet_link_limit) × (length opens.old ≡ sheet_link_limit) }
    ensures { (length to.new ≡ sheet_link_limit) × (length flags.new ≡ sheet_link_limit) × (length opens.new ≡ sheet_link_limit) × ((marked : List ℕ) (m : ℕ) → Tells parts.now n marked m sets.now (suc links) to.old flags.old opens.old → Tells parts.now n marked m sets.now (suc links) to.new flags.new opens.new) }
{
    for row in 0..n {
        tell_row(to, flags, opens, sets, links, parts, n, row);
    }
}

// The links of n marks.
pub(crate) fn tell_marks(
    to: &mut [u16; Sheet::LINKS],
    flags: &mut [u8; Sheet::LINKS],
    opens: &mut [u8; Sheet::LINKS],
    sets: &[u64; LINK_SETS],
    links: usize,
    marked: &[u16; Sheet::MARK_ROOM],
    n: usize,
)
    requires { MarkLinks marked.now n × (links ≤ sheet_link_limit) × (length to.old ≡ sheet_link_limit) × (length flags.old ≡ sheet_link_limit) × (length opens.old ≡ sheet_link_limit) }
    ensures { (parts : List ℕ) (m : ℕ) → Tells parts m marked.now n sets.now (suc links) to.old flags.old opens.old → Tells parts m marked.now n sets.now (suc links) to.new flags.new opens.new }
{
    for p in 0..n {
        let x = marked[p] as usize;
        tell(to, flags, opens, sets, links, x - 1);
    }
}
