// Whether the unsettled links can be placed so that nothing stands in the way. Only those on several context rows
// are tried, which have a flag; what failed once is barred, and not tried again.
ghost use Rattle.std.specs.Prelude.{◌<◌, ◌≡◌, length, get_or};
ghost use Rattle.rows.specs.Limits.{sheet_link_limit};
ghost use Rattle.rows.specs.declared.Sheet.{Sheet as NormalForm};
ghost use Rattle.settling.specs.Completes.{Tables, Completes, CompletesAt, Mends, KeepsBars};

use crate::neighbours::bar_along;
use crate::obstacle::obstacle;
use candidates::{LAID, LINK_SETS};
use deciding::bars::{bar, barred};
use faults::nets::Nets;
use rows::Sheet;
use stepping::CHAINS;

// A fault can be mended only by an unsettled link at one of its links.
#[cycle(completable_mendable_tried_at)]
pub(crate) fn completable(
    nets: Nets,
    laid: &[u16; LAID],
    chains: &[u16; CHAINS],
    taken: &[u8; Sheet::ATOMS],
    kinds: &[u16; Sheet::LINKS],
    standing: &[u16; Sheet::LINKS],
    to: &[u16; Sheet::LINKS],
    flags: &[u8; Sheet::LINKS],
    bars: &[u64; LINK_SETS],
) -> bool
    requires { ((sheet : NormalForm) × (figure : NormalForm) × Tables sheet figure nets laid.now chains.now kinds.now standing.now to.now) × (length flags.now ≡ sheet_link_limit) }
    ensures { (sheet figure : NormalForm) → Tables sheet figure nets laid.now chains.now kinds.now standing.now to.now → Completes sheet figure taken.now to.now flags.now bars.now result }
{
    let Some(links) = obstacle(nets, laid, chains, taken, standing, to, flags) else {
        return true;
    };
    let mut known = *bars;
    for x in 0..nets.count {
        if flags[x] == 1 {
            if mendable(
                nets, laid, chains, taken, kinds, standing, to, flags, &links, x, &mut known,
            ) {
                return true;
            }
        }
    }
    false
}

// The same with link x at one of `links`.
#[cycle(completable_mendable_tried_at)]
fn mendable(
    nets: Nets,
    laid: &[u16; LAID],
    chains: &[u16; CHAINS],
    taken: &[u8; Sheet::ATOMS],
    kinds: &[u16; Sheet::LINKS],
    standing: &[u16; Sheet::LINKS],
    to: &[u16; Sheet::LINKS],
    flags: &[u8; Sheet::LINKS],
    links: &[u8; Sheet::LINKS],
    x: usize,
    bars: &mut [u64; LINK_SETS],
) -> bool
    requires { ((sheet : NormalForm) × (figure : NormalForm) × Tables sheet figure nets laid.now chains.now kinds.now standing.now to.now) × (length flags.now ≡ sheet_link_limit) × (x < nets.count) × (get_or flags.now x 0 ≡ 1) }
    ensures { (sheet figure : NormalForm) → Tables sheet figure nets laid.now chains.now kinds.now standing.now to.now → Mends sheet figure taken.now to.now flags.now bars.old links.now x result × KeepsBars sheet figure taken.now to.now flags.now bars.old x bars.new }
{
    for y in 0..nets.links {
        if links[y] == 1 {
            if tried_at(
                nets, laid, chains, taken, kinds, standing, to, flags, x, y, bars,
            ) {
                return true;
            }
        }
    }
    false
}

// The same with link x at y. Where that fails it is barred, there and along the plain ways from y.
#[cycle(completable_mendable_tried_at)]
pub(crate) fn tried_at(
    nets: Nets,
    laid: &[u16; LAID],
    chains: &[u16; CHAINS],
    taken: &[u8; Sheet::ATOMS],
    kinds: &[u16; Sheet::LINKS],
    standing: &[u16; Sheet::LINKS],
    to: &[u16; Sheet::LINKS],
    flags: &[u8; Sheet::LINKS],
    x: usize,
    y: usize,
    bars: &mut [u64; LINK_SETS],
) -> bool
    requires { ((sheet : NormalForm) × (figure : NormalForm) × Tables sheet figure nets laid.now chains.now kinds.now standing.now to.now) × (length flags.now ≡ sheet_link_limit) × (x < nets.count) × (y < nets.links) }
    ensures { (sheet figure : NormalForm) → Tables sheet figure nets laid.now chains.now kinds.now standing.now to.now → CompletesAt sheet figure taken.now to.now flags.now bars.old x y result × KeepsBars sheet figure taken.now to.now flags.now bars.old x bars.new }
{
    if barred(bars, x, y) {
        return false;
    }
    let mut next = *to;
    next[x] = (y + 1) as u16;
    let mut rest = *flags;
    rest[x] = 0;
    if completable(
        nets, laid, chains, taken, kinds, standing, &next, &rest, bars,
    ) {
        return true;
    }
    bar(bars, kinds, nets.count, x, y);
    bar_along(nets, laid, chains, taken, kinds, standing, to, x, y, bars);
    false
}
