// The first sets: by colours where there are no contexts, by what atoms and links have in common otherwise.
ghost use Rattle.std.specs.Prelude.{◌≡◌, true, false, [], ◌*◌, length};
ghost use Rattle.rows.specs.Limits.{sheet_atom_limit, sheet_link_limit};
ghost use Rattle.placing.specs.Placing.{Placing, Good};
ghost use Rattle.network.specs.NetIn.{net_in};
ghost use Rattle.candidates.specs.Frames.{whole};
ghost use Rattle.candidates.specs.Laid.{LaidOut};
ghost use Rattle.candidates.specs.Sets.{Keeps};
ghost use Rattle.candidates.specs.Tables.{MayAtom, MayLink};
ghost use Rattle.narrowing.specs.Users.{UsersIn};

use crate::start::start;
use candidates::frame::Frame;
use candidates::{LAID, LINK_SETS};
use colours::colour::colours_differ;
use narrowing::PLACES;
use rows::Sheet;

// With fewer atoms a search takes less time than colours.
const FEW: usize = 12;

// Whether it is worth while to colour the nets, and allowed: neither has contexts.
fn by_colours(sheet: Frame, figure: Frame) -> bool
    ensures { result ≡ true → (sheet.context_count ≡ 0) × (figure.context_count ≡ 0) }
{
    if sheet.context_count != 0 {
        return false;
    }
    if figure.context_count != 0 {
        return false;
    }
    FEW <= sheet.atom_count
}

// Sets that every good placing stays in. Where that is known, there is none: then the sets say nothing.
pub fn first_sets<'a>(
    sheet: Frame,
    figure: Frame,
    laid: &'a [u16; LAID],
    parts: &'a [u16; LAID],
    users: &'a [u64; PLACES],
    owners: &'a [u64; PLACES],
    atoms: &mut [u64; Sheet::ATOMS],
    links: &mut [u64; LINK_SETS],
) -> bool
    requires { LaidOut (whole sheet laid.now) laid.now sheet.atom_count × LaidOut (whole figure parts.now) parts.now figure.atom_count × UsersIn laid.now sheet.atom_count users.now × UsersIn parts.now figure.atom_count owners.now × (length atoms.old ≡ sheet_atom_limit) × (length links.old ≡ sheet_link_limit * 2) }
    ensures none { result ≡ true → (p : Placing) → ¬ Good (net_in (whole sheet laid.now)) (net_in (whole figure parts.now)) p }
    ensures keeps { result ≡ false → Keeps (net_in (whole sheet laid.now)) (net_in (whole figure parts.now)) [] (MayAtom atoms.new) (MayLink links.new) }
{
    if by_colours(sheet, figure) {
        return colours_differ(sheet, figure, laid, parts, users, owners, atoms, links);
    }
    start(sheet, figure, laid, parts, atoms, links);
    false
}
