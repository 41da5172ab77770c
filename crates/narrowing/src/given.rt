// Sheet links that no sheet atom left for a figure atom has.
ghost use Rattle.std.specs.Prelude.{◌≡◌, ℕ, ◌+◌, ◌*◌, ◌<◌, ◌≤◌, get_or, MatchOption};
ghost use Rattle.rows.specs.Format.{most_links};
ghost use Rattle.rows.specs.Limits.{sheet_atom_limit, sheet_link_limit};
ghost use Rattle.network.specs.NetIn.{Used};
ghost use Rattle.candidates.specs.Laid.{laid_atom, Rowed, link_of};
ghost use Rattle.candidates.specs.Words.{In, InPair};
ghost use Rattle.candidates.specs.Tables.{LinksStay};
ghost use Rattle.narrowing.specs.Users.{UsersIn};
ghost use Rattle.narrowing.specs.Steps.{Given, GivenRow};

use crate::PLACES;
use candidates::pairs::{common, is_empty, pair_at, set_pair, with, without};
use candidates::words::{first, minus, one};
use candidates::{LAID, LINK_SETS};
use rows::{Atom, Sheet};

// The link of atom t at place k, counted from 0, where it has one there.
fn link_at(laid: &[u16; LAID], t: usize, k: usize) -> Option<usize>
    requires { (t < sheet_atom_limit) × (k < most_links) × Used sheet_link_limit (laid_atom laid.now t).count (laid_atom laid.now t).links }
    ensures { MatchOption result ((laid_atom laid.now t).count ≤ k) (λ y. (k < (laid_atom laid.now t).count) × (link_of (laid_atom laid.now t) k ≡ y + 1) × (y < sheet_link_limit)) }
{
    let at = t * Sheet::FIELDS;
    if laid[at + 1] as usize <= k {
        return None;
    }
    Some(laid[at + (2 + k)] as usize - 1)
}

// The links that the atoms of a set have at place k, of the first n.
pub(crate) fn given(laid: &[u16; LAID], n: usize, row: u64, k: usize) -> [u64; 2]
    requires { Rowed laid.now n × (k < most_links) }
    ensures { (y : ℕ) → y < sheet_link_limit → Given (laid_atom laid.now) n row k y → InPair result y }
{
    let mut pair = [0u64; 2];
    let mut rest = row;
    while rest != 0 {
        let t = first(rest);
        rest = minus(rest, one(t));
        if t < n {
            if let Some(y) = link_at(laid, t, k) {
                let more = with(pair, y);
                pair = more;
            }
        }
    }
    pair
}

// Links that those of `gone` have at place k and those of `row` have not.
fn missing<'a>(
    users: &'a [u64; PLACES],
    laid: &'a [u16; LAID],
    n: usize,
    row: u64,
    gone: u64,
    k: usize,
) -> [u64; 2]
    requires { Rowed laid.now n × (k < most_links) }
    ensures { (y : ℕ) → y < sheet_link_limit → InPair result y → (t : ℕ) → In row t → ¬ In (get_or users.now (k * sheet_link_limit + y) 0) t }
{
    let mut pair = [0u64; 2];
    let mut rest = gone;
    while rest != 0 {
        let t = first(rest);
        rest = minus(rest, one(t));
        if t < n {
            if let Some(y) = link_at(laid, t, k) {
                if users[k * Sheet::LINKS + y] & row == 0 {
                    let more = with(pair, y);
                    pair = more;
                }
            }
        }
    }
    pair
}

// Of a set of links, those that the atoms of `row` have at place k. Where those that went, `gone`, are fewer, only
// their links are looked at.
fn links_left<'a>(
    users: &'a [u64; PLACES],
    laid: &'a [u16; LAID],
    n: usize,
    row: u64,
    gone: u64,
    k: usize,
    pair: [u64; 2],
) -> [u64; 2]
    requires { Rowed laid.now n × (k < most_links) × UsersIn laid.now n users.now }
    ensures { (y : ℕ) → y < sheet_link_limit → InPair pair y → Given (laid_atom laid.now) n row k y → InPair result y }
{
    if u64::count_ones(row) <= u64::count_ones(gone) {
        return common(pair, given(laid, n, row, k));
    }
    without(pair, missing(users, laid, n, row, gone, k))
}

// What went is added to the losses of link x. It is pending where that is not nothing.
pub(crate) fn note_loss(
    x: usize,
    went: [u64; 2],
    lost: &mut [u64; LINK_SETS],
    pending: &mut [u64; 2],
)
    requires { x < sheet_link_limit }
{
    if !is_empty(went) {
        lost[x * 2] = lost[x * 2] | went[0];
        lost[x * 2 + 1] = lost[x * 2 + 1] | went[1];
        let more = with(*pending, x);
        *pending = more;
    }
}

// The figure atom `here`, to which the sheet atoms of `row` are left, has lost those of `gone`: its links lose what
// none of those left can give.
pub(crate) fn follow_atom<'a>(
    users: &'a [u64; PLACES],
    laid: &'a [u16; LAID],
    n: usize,
    here: Atom,
    row: u64,
    gone: u64,
    links: &mut [u64; LINK_SETS],
    lost: &mut [u64; LINK_SETS],
    pending: &mut [u64; 2],
)
    requires { Rowed laid.now n × UsersIn laid.now n users.now × Used sheet_link_limit here.count here.links }
    ensures { LinksStay links.old links.new (GivenRow (laid_atom laid.now) n here row) }
{
    let count = here.count as usize;
    for k in 0..count {
        let x = here.links[k] as usize - 1;
        let before = pair_at(links, x);
        let left = links_left(users, laid, n, row, gone, k, before);
        set_pair(links, x, left);
        note_loss(x, without(before, left), lost, pending);
    }
}
