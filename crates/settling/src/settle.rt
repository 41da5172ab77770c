// The open links settled one by one, each at the first sheet link with which the rest can be completed.
ghost use Rattle.std.specs.Prelude.{ℕ, ◌<◌, ◌≡◌, length, replicate};
ghost use Rattle.rows.specs.Limits.{sheet_link_limit};
ghost use Rattle.rows.specs.declared.Sheet.{Sheet as NormalForm};
ghost use Rattle.settling.specs.Completes.{Tables, FirstFor, KeepsBars, Settles};

use crate::completable::tried_at;
use candidates::{LAID, LINK_SETS};
use faults::nets::Nets;
use rows::Sheet;
use stepping::CHAINS;

// The first sheet link for link x, and none last.
fn first_link(
    nets: Nets,
    laid: &[u16; LAID],
    chains: &[u16; CHAINS],
    taken: &[u8; Sheet::ATOMS],
    kinds: &[u16; Sheet::LINKS],
    standing: &[u16; Sheet::LINKS],
    to: &[u16; Sheet::LINKS],
    flags: &[u8; Sheet::LINKS],
    x: usize,
    bars: &mut [u64; LINK_SETS],
) -> u16
    requires { ((sheet : NormalForm) × (figure : NormalForm) × Tables sheet figure nets laid.now chains.now kinds.now standing.now to.now) × (length flags.now ≡ sheet_link_limit) × (x < nets.count) }
    ensures { (sheet figure : NormalForm) → Tables sheet figure nets laid.now chains.now kinds.now standing.now to.now → FirstFor sheet figure taken.now to.now flags.now bars.old x result × KeepsBars sheet figure taken.now to.now flags.now bars.old x bars.new }
{
    for y in 0..nets.links {
        if tried_at(
            nets, laid, chains, taken, kinds, standing, to, flags, x, y, bars,
        ) {
            return (y + 1) as u16;
        }
    }
    (nets.links + 1) as u16
}

// The links with a flag in `opened` settled; those on several rows have one in `flags` too. Nothing is barred at first.
pub(crate) fn settled(
    nets: Nets,
    laid: &[u16; LAID],
    chains: &[u16; CHAINS],
    taken: &[u8; Sheet::ATOMS],
    kinds: &[u16; Sheet::LINKS],
    standing: &[u16; Sheet::LINKS],
    to: &[u16; Sheet::LINKS],
    opened: &[u8; Sheet::LINKS],
    flags: &[u8; Sheet::LINKS],
    bars: &mut [u64; LINK_SETS],
) -> [u16; Sheet::LINKS]
    requires { ((sheet : NormalForm) × (figure : NormalForm) × Tables sheet figure nets laid.now chains.now kinds.now standing.now to.now) × (length opened.now ≡ sheet_link_limit) × (length flags.now ≡ sheet_link_limit) × ((n : ℕ) × (bars.old ≡ replicate n 0)) }
    ensures { (sheet figure : NormalForm) → Tables sheet figure nets laid.now chains.now kinds.now standing.now to.now → Settles sheet figure taken.now to.now opened.now flags.now result }
{
    let mut next = *to;
    let mut rest = *opened;
    let mut several = *flags;
    for x in 0..nets.count {
        if rest[x] == 1 {
            let y = first_link(
                nets, laid, chains, taken, kinds, standing, &next, &several, x, bars,
            );
            next[x] = y;
            rest[x] = 0;
            several[x] = 0;
        }
    }
    next
}
