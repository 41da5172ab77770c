// A figure link that has one place to go.
ghost use Rattle.std.specs.Prelude.{◌≡◌, ℕ, ◌+◌, ◌*◌, ◌<◌, ◌≤◌, get_or, IfSome};
ghost use Rattle.rows.specs.Format.{most_links};
ghost use Rattle.rows.specs.Limits.{sheet_link_limit};
ghost use Rattle.candidates.specs.Words.{In, InPair};
ghost use Rattle.candidates.specs.Tables.{LinksStay};
ghost use Rattle.narrowing.specs.Steps.{AloneLink, KinNarrowed};

use crate::PLACES;
use crate::given::note_loss;
use candidates::pairs::{common, first_link, is_empty, pair_at, set_pair, without, without_link};
use candidates::words::first;
use candidates::{KIN, LINK_SETS};
use rows::Sheet;

// So many links, at most those of a sheet.
fn within(n: u16) -> usize
    ensures { result ≤ sheet_link_limit }
{
    let most = n as usize;
    if most < Sheet::LINKS {
        return most;
    }
    Sheet::LINKS
}

// The places that two or more of the first n figure links may go to.
fn shared(n: usize, links: &[u64; LINK_SETS]) -> [u64; 2]
    requires { n ≤ sheet_link_limit }
{
    let mut low = 0u64;
    let mut high = 0u64;
    let mut low_twice = 0u64;
    let mut high_twice = 0u64;
    for z in 0..n {
        let below = links[z * 2];
        let above = links[z * 2 + 1];
        low_twice = low_twice | (low & below);
        high_twice = high_twice | (high & above);
        low = low | below;
        high = high | above;
    }
    [low_twice, high_twice]
}

// The places of the set are taken from each of the first n figure links that has another label than x.
fn strip_others(
    kin: &[u16; KIN],
    x: usize,
    n: usize,
    set: [u64; 2],
    links: &mut [u64; LINK_SETS],
    lost: &mut [u64; LINK_SETS],
    pending: &mut [u64; 2],
)
    requires { (x < sheet_link_limit) × (n ≤ sheet_link_limit) }
    ensures { LinksStay links.old links.new (λ z y. InPair set y → get_or kin.now z 0 ≡ get_or kin.now x 0) }
{
    let own = kin[x];
    for z in 0..n {
        let label = kin[z];
        if label != own {
            let before = pair_at(links, z);
            set_pair(links, z, without(before, set));
            note_loss(z, common(before, set), lost, pending);
        }
    }
}

// Where figure link x has one place to go, links that are not kin to it lose it.
fn alone_link(
    kin: &[u16; KIN],
    x: usize,
    n: usize,
    links: &mut [u64; LINK_SETS],
    lost: &mut [u64; LINK_SETS],
    pending: &mut [u64; 2],
)
    requires { (x < sheet_link_limit) × (n ≤ sheet_link_limit) }
    ensures { LinksStay links.old links.new (AloneLink kin.now links.old x) }
{
    let set = pair_at(links, x);
    if is_empty(set) {
        return;
    }
    let more = without_link(set, first_link(set));
    if is_empty(more) {
        strip_others(kin, x, n, set, links, lost, pending);
    }
}

// A figure atom that has link x.
fn owner_of(owners: &[u64; PLACES], x: usize) -> Option<usize>
    requires { x < sheet_link_limit }
    ensures { IfSome result (λ i. (k : ℕ) × (k < most_links) × In (get_or owners.now (k * sheet_link_limit + x) 0) i) }
{
    for k in 0..Sheet::MOST_LINKS {
        let some = owners[k * Sheet::LINKS + x];
        if some != 0 {
            return Some(first(some));
        }
    }
    None
}

// The turn of figure link x: where others may go to its places too and a figure atom has it, only its kin keep its one
// place.
fn kin_turn<'a>(
    owners: &'a [u64; PLACES],
    kin: &'a [u16; KIN],
    x: usize,
    n: usize,
    others: [u64; 2],
    links: &mut [u64; LINK_SETS],
    lost: &mut [u64; LINK_SETS],
    pending: &mut [u64; 2],
)
    requires { (x < sheet_link_limit) × (n ≤ sheet_link_limit) }
    ensures { KinNarrowed owners.now kin.now links.old links.new }
{
    if is_empty(common(pair_at(links, x), others)) {
        return;
    }
    if owner_of(owners, x).is_some() {
        alone_link(kin, x, n, links, lost, pending);
    }
}

// The turns of all links that the figure's atoms have.
pub(crate) fn kin_turns<'a>(
    owners: &'a [u64; PLACES],
    kin: &'a [u16; KIN],
    links: &mut [u64; LINK_SETS],
    lost: &mut [u64; LINK_SETS],
    pending: &mut [u64; 2],
)
    ensures { KinNarrowed owners.now kin.now links.old links.new }
{
    let n = within(kin[Sheet::LINKS]);
    let others = shared(n, links);
    if is_empty(others) {
        return;
    }
    for x in 0..n {
        kin_turn(owners, kin, x, n, others, links, lost, pending);
    }
}
