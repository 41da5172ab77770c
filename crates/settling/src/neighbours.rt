// What failed at a sheet link fails along the plain ways that lead from it, and is barred there too.
ghost use Rattle.std.specs.Prelude.{ℕ, ◌<◌, ◌≡◌, IfSome, List, length};
ghost use Rattle.rows.specs.Limits.{sheet_link_limit};
ghost use Rattle.rows.specs.declared.Sheet.{Sheet as NormalForm};
ghost use Rattle.settling.specs.Beyond.{Along};
ghost use Rattle.settling.specs.Completes.{Tables, KeepsBars};

use candidates::{LAID, LINK_SETS};
use deciding::bars::{bar, barred};
use faults::nets::Nets;
use faults::part::stands;
use rows::Sheet;
use stepping::CHAINS;
use stepping::lookup::used_links;
use stepping::plain::{one_each, other_on, step_over};

// The link to which atom t leads from y is barred to x as y is. It is handed back, unless it was barred before.
fn bar_beyond(
    nets: Nets,
    laid: &[u16; LAID],
    chains: &[u16; CHAINS],
    taken: &[u8; Sheet::ATOMS],
    kinds: &[u16; Sheet::LINKS],
    used: &[u8; Sheet::LINKS],
    x: usize,
    y: usize,
    t: usize,
    bars: &mut [u64; LINK_SETS],
) -> Option<usize>
    requires { ((sheet : NormalForm) × (figure : NormalForm) × (to : List ℕ) × Along sheet figure nets laid.now chains.now kinds.now used.now to) × (x < nets.count) × (y < nets.links) × (t < nets.atoms) }
    ensures { IfSome result (λ z. z < nets.links) × ((sheet figure : NormalForm) (to flags : List ℕ) → Along sheet figure nets laid.now chains.now kinds.now used.now to → length flags ≡ sheet_link_limit → KeepsBars sheet figure taken.now to flags bars.old x bars.new) }
{
    if !barred(bars, x, y) {
        return None;
    }
    if !stands(laid, nets.atoms, t, y + 1) {
        return None;
    }
    let z = step_over(laid, chains, nets.atoms, taken, used, t, y)?;
    if nets.links <= z {
        return None;
    }
    if barred(bars, x, z) {
        return None;
    }
    bar(bars, kinds, nets.count, x, z);
    Some(z)
}

// Along the way that leads from link y through atom t.
fn follow(
    nets: Nets,
    laid: &[u16; LAID],
    chains: &[u16; CHAINS],
    taken: &[u8; Sheet::ATOMS],
    kinds: &[u16; Sheet::LINKS],
    used: &[u8; Sheet::LINKS],
    x: usize,
    y: usize,
    t: usize,
    bars: &mut [u64; LINK_SETS],
)
    requires { ((sheet : NormalForm) × (figure : NormalForm) × (to : List ℕ) × Along sheet figure nets laid.now chains.now kinds.now used.now to) × (x < nets.count) × (y < nets.links) × (t < nets.atoms) }
    ensures { (sheet figure : NormalForm) (to flags : List ℕ) → Along sheet figure nets laid.now chains.now kinds.now used.now to → length flags ≡ sheet_link_limit → KeepsBars sheet figure taken.now to flags bars.old x bars.new }
{
    let mut at = y;
    let mut atom = t;
    for n in 0..nets.links {
        let Some(z) = bar_beyond(nets, laid, chains, taken, kinds, used, x, at, atom, bars) else {
            return;
        };
        at = z;
        atom = other_on(chains, at, atom);
    }
}

// Along all of them, where no two contexts have one number.
pub(crate) fn bar_along(
    nets: Nets,
    laid: &[u16; LAID],
    chains: &[u16; CHAINS],
    taken: &[u8; Sheet::ATOMS],
    kinds: &[u16; Sheet::LINKS],
    standing: &[u16; Sheet::LINKS],
    to: &[u16; Sheet::LINKS],
    x: usize,
    y: usize,
    bars: &mut [u64; LINK_SETS],
)
    requires { ((sheet : NormalForm) × (figure : NormalForm) × Tables sheet figure nets laid.now chains.now kinds.now standing.now to.now) × (x < nets.count) × (y < nets.links) }
    ensures { (sheet figure : NormalForm) (flags : List ℕ) → Tables sheet figure nets laid.now chains.now kinds.now standing.now to.now → length flags ≡ sheet_link_limit → KeepsBars sheet figure taken.now to.now flags bars.old x bars.new }
{
    let contexts = nets.contexts;
    if !one_each(contexts, nets.rows) {
        return;
    }
    let used = used_links(nets.count, to, (nets.links + 1) as u16);
    let mut v = chains[y] as usize;
    while v != 0 {
        let t = (v - Sheet::LINKS) / Sheet::MOST_LINKS;
        follow(nets, laid, chains, taken, kinds, &used, x, y, t, bars);
        v = chains[v] as usize;
    }
}
