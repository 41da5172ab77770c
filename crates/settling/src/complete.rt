// The least completion of placed atoms.
ghost use Rattle.std.specs.Prelude.{◌≡◌, true, ◌↔◌, ◌≢◌, ℕ, ◌<◌, ◌≤◌, length, take, get_or};
ghost use Rattle.rows.specs.Limits.{sheet_link_limit};
ghost use Rattle.rows.specs.declared.Sheet.{Sheet as NormalForm};
ghost use Rattle.network.specs.NetIn.{net_in};
ghost use Rattle.network.specs.Ready.{Ready, AtomsIn, LinksIn};
ghost use Rattle.network.specs.Begun.{least_after};
ghost use Rattle.candidates.specs.Laid.{LaidOut};
ghost use Rattle.candidates.specs.Frames.{whole};
ghost use Rattle.faults.specs.Finds.{NetsIn};
ghost use Rattle.settling.specs.Completed.{completed_in};
ghost use Rattle.settling.specs.Completes.{LeastIn};

use crate::completable::completable;
use crate::settle::settled;
use candidates::frame::Frame;
use candidates::{LAID, LINK_SETS};
use deciding::decided::links_of;
use deciding::kinds::kinds;
use deciding::opening::open_links;
use deciding::several::several;
use deciding::taken::taken_by;
use faults::fault::find;
use faults::nets::Nets;
use rows::Sheet;
use stepping::CHAINS;
use stepping::chains::chains;
use stepping::standing::standing;

// Where the figure links go, and the context of each sheet atom, 0 where a figure atom goes.
#[derive(Clone, Copy)]
pub struct Completed {
    pub links_to: [u16; Sheet::LINKS],
    pub given: [u16; Sheet::ATOMS],
}

// None of the first `count` links has a flag.
fn none_open(flags: &[u8; Sheet::LINKS], count: usize) -> bool
    requires { count ≤ sheet_link_limit }
    ensures { (result ≡ true) ↔ ((x : ℕ) → x < count → get_or flags.now x 0 ≢ 1) }
{
    for x in 0..count {
        if flags[x] == 1 {
            return false;
        }
    }
    true
}

// The least completion, if there is one, where the links with a flag are open. Where none is, one look for a fault
// decides.
fn least<'a>(
    nets: Nets,
    laid: &'a [u16; LAID],
    taken: &'a [u8; Sheet::ATOMS],
    to: &'a [u16; Sheet::LINKS],
    flags: &'a [u8; Sheet::LINKS],
) -> Option<Completed>
    requires { ((sheet : NormalForm) × (figure : NormalForm) × NetsIn sheet figure nets laid.now × LinksIn sheet figure to.now) × (length flags.now ≡ sheet_link_limit) }
    ensures { (sheet figure : NormalForm) → NetsIn sheet figure nets laid.now → LinksIn sheet figure to.now → LeastIn sheet figure taken.now to.now flags.now result }
{
    let mut table = [0u16; CHAINS];
    chains(&mut table, laid, nets.atoms);
    if none_open(flags, nets.count) {
        let Ok(given) = find(nets, laid, &table, taken, to) else {
            return None;
        };
        return Some(Completed {
            links_to: *to,
            given,
        });
    }
    let contexts = nets.contexts;
    let kind = kinds(contexts, nets.rows);
    let words = standing(contexts, nets.rows);
    let tried = several(contexts, nets.rows, nets.count, flags);
    let mut bars = [0u64; LINK_SETS];
    if !completable(nets, laid, &table, taken, &kind, &words, to, &tried, &bars) {
        return None;
    }
    let links_to = settled(
        nets, laid, &table, taken, &kind, &words, to, flags, &tried, &mut bars,
    );
    let Ok(given) = find(nets, laid, &table, taken, &links_to) else {
        return None;
    };
    Some(Completed { links_to, given })
}

// Links and contexts of the least good placing with these atoms, if there is one. `laid` are the sheet's atoms, `parts`
// the figure's.
pub fn complete<'a>(
    sheet: Frame,
    figure: Frame,
    laid: &'a [u16; LAID],
    parts: &'a [u16; LAID],
    atoms_to: [u16; Sheet::ATOMS],
) -> Option<Completed>
    requires { Ready (whole sheet laid.now) (whole figure parts.now) × AtomsIn (whole sheet laid.now) figure.atom_count atoms_to × LaidOut (whole sheet laid.now) laid.now sheet.atom_count × LaidOut (whole figure parts.now) parts.now figure.atom_count }
    ensures { completed_in (whole sheet laid.now) (whole figure parts.now) result ≡ least_after (net_in (whole sheet laid.now)) (net_in (whole figure parts.now)) (take figure.atom_count atoms_to) }
{
    let taken = taken_by(figure.atom_count, atoms_to)?;
    let told = links_of(sheet, figure, laid, parts, atoms_to)?;
    let none = (sheet.class_count + 1) as u16;
    let opened = open_links(told, none, figure.class_count);
    let contexts = figure.contexts;
    let nets = Nets {
        atoms: sheet.atom_count,
        links: sheet.class_count,
        contexts,
        rows: figure.context_count,
        count: figure.class_count,
    };
    least(nets, laid, &taken, &opened.to, &opened.flags)
}
