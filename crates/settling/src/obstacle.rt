// What stands in the way of completing.
ghost use Rattle.std.specs.Prelude.{◌≡◌, length};
ghost use Rattle.rows.specs.Limits.{sheet_link_limit};
ghost use Rattle.rows.specs.declared.Sheet.{Sheet as NormalForm};
ghost use Rattle.stepping.specs.Standing.{Standing, Refuses};
ghost use Rattle.faults.specs.Finds.{Over};
ghost use Rattle.settling.specs.Completes.{Hinders};

use candidates::LAID;
use faults::fault::find;
use faults::nets::Nets;
use remaining::remaining::refused;
use rows::Sheet;
use stepping::CHAINS;
use ways::outnumbered::outnumbered;

// No unsettled link can mend anything: an atom has no context left, or ways outnumber the links.
fn hopeless(
    nets: Nets,
    laid: &[u16; LAID],
    chains: &[u16; CHAINS],
    taken: &[u8; Sheet::ATOMS],
    standing: &[u16; Sheet::LINKS],
    to: &[u16; Sheet::LINKS],
    flags: &[u8; Sheet::LINKS],
) -> bool
    requires { (sheet : NormalForm) × (figure : NormalForm) × Over sheet figure nets laid.now chains.now to.now × Standing figure standing.now }
    ensures { (sheet figure : NormalForm) → Over sheet figure nets laid.now chains.now to.now → Standing figure standing.now → Refuses sheet figure taken.now to.now flags.now result }
{
    let atoms = nets.atoms;
    let links = nets.links;
    let count = nets.count;
    if refused(atoms, links, count, chains, taken, standing, to, flags) {
        return true;
    }
    outnumbered(
        atoms, links, count, laid, chains, taken, standing, to, flags,
    )
}

// A fault, if there is one: 1 for each of its sheet links, and for none where no unsettled link can mend it.
pub(crate) fn obstacle(
    nets: Nets,
    laid: &[u16; LAID],
    chains: &[u16; CHAINS],
    taken: &[u8; Sheet::ATOMS],
    standing: &[u16; Sheet::LINKS],
    to: &[u16; Sheet::LINKS],
    flags: &[u8; Sheet::LINKS],
) -> Option<[u8; Sheet::LINKS]>
    requires { ((sheet : NormalForm) × (figure : NormalForm) × Over sheet figure nets laid.now chains.now to.now × Standing figure standing.now) × (length flags.now ≡ sheet_link_limit) }
    ensures { (sheet figure : NormalForm) → Over sheet figure nets laid.now chains.now to.now → Standing figure standing.now → Hinders sheet figure taken.now to.now flags.now result }
{
    let Err(links) = find(nets, laid, chains, taken, to) else {
        return None;
    };
    if hopeless(nets, laid, chains, taken, standing, to, flags) {
        return Some([0; Sheet::LINKS]);
    }
    Some(links)
}
