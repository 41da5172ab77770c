// A sheet and a figure without contexts, compared by colours.
ghost use Rattle.std.specs.Prelude.{◌≡◌, ℕ, ◌-◌, ◌*◌, true, false, [], length, replicate};
ghost use Rattle.rows.specs.Limits.{sheet_atom_limit, sheet_link_limit};
ghost use Rattle.placing.specs.Placing.{Placing, Good};
ghost use Rattle.network.specs.NetIn.{net_in};
ghost use Rattle.candidates.specs.Frames.{whole};
ghost use Rattle.candidates.specs.Laid.{LaidOut};
ghost use Rattle.candidates.specs.Sets.{Keeps};
ghost use Rattle.candidates.specs.Tables.{MayAtom, MayLink};
ghost use Rattle.narrowing.specs.Users.{UsersIn};
ghost use Rattle.colours.specs.Colours.{first, Agree};
ghost use Rattle.colours.specs.Pieces.{Sizes};
ghost use Rattle.colours.specs.Mixed.{mixing};
ghost use Rattle.colours.specs.Arrays.{held};

use crate::pieces::sizes_of;
use crate::round::{first_atoms, first_links, refine, total};
use crate::sets::{atom_sets, link_sets};
use candidates::frame::Frame;
use candidates::{LAID, LINK_SETS};
use narrowing::PLACES;
use rows::Sheet;

// Rounds after the first colours.
const ROUNDS: usize = 3;

// The first colours of a net, into tables of zeros.
fn first_colours<'a>(
    net: Frame,
    laid: &'a [u16; LAID],
    users: &'a [u64; PLACES],
    atoms: &mut [u64; Sheet::ATOMS],
    links: &mut [u64; Sheet::LINKS],
)
    requires { LaidOut (whole net laid.now) laid.now net.atom_count × UsersIn laid.now net.atom_count users.now × (atoms.old ≡ replicate sheet_atom_limit 0) × (links.old ≡ replicate sheet_link_limit 0) }
    ensures { (length atoms.new ≡ sheet_atom_limit) × (length links.new ≡ sheet_link_limit) × ((size : ℕ → ℕ) × Sizes (net_in (whole net laid.now)) size × Agree (net_in (whole net laid.now)) (first mixing (net_in (whole net laid.now)) size) (held atoms.new links.new)) }
{
    sizes_of(laid, net.atom_count, users, atoms);
    first_atoms(laid, net.atom_count, atoms);
    first_links(net.marks, &net.marked, net.mark_count, links);
}

// Whether colours tell a sheet and a figure without contexts apart, so that there is no good placing. Where they do not,
// each figure atom and each figure link may go where its colour is.
pub fn colours_differ<'a>(
    sheet: Frame,
    figure: Frame,
    laid: &'a [u16; LAID],
    parts: &'a [u16; LAID],
    users: &'a [u64; PLACES],
    owners: &'a [u64; PLACES],
    atoms: &mut [u64; Sheet::ATOMS],
    links: &mut [u64; LINK_SETS],
) -> bool
    requires { LaidOut (whole sheet laid.now) laid.now sheet.atom_count × LaidOut (whole figure parts.now) parts.now figure.atom_count × UsersIn laid.now sheet.atom_count users.now × UsersIn parts.now figure.atom_count owners.now × (sheet.context_count ≡ 0) × (figure.context_count ≡ 0) × (length atoms.old ≡ sheet_atom_limit) × (length links.old ≡ sheet_link_limit * 2) }
    ensures apart { result ≡ true → (p : Placing) → ¬ Good (net_in (whole sheet laid.now)) (net_in (whole figure parts.now)) p }
    ensures keeps { result ≡ false → Keeps (net_in (whole sheet laid.now)) (net_in (whole figure parts.now)) [] (MayAtom atoms.new) (MayLink links.new) }
{
    let n = sheet.atom_count;
    let c = sheet.class_count;
    let m = figure.atom_count;
    let d = figure.class_count;
    let mut sheet_atoms = [0u64; Sheet::ATOMS];
    let mut sheet_links = [0u64; Sheet::LINKS];
    first_colours(sheet, laid, users, &mut sheet_atoms, &mut sheet_links);
    let mut figure_atoms = [0u64; Sheet::ATOMS];
    let mut figure_links = [0u64; Sheet::LINKS];
    first_colours(figure, parts, owners, &mut figure_atoms, &mut figure_links);
    for rounds in 0..ROUNDS {
        let sum = total(n, c, &sheet_atoms, &sheet_links);
        if sum != total(m, d, &figure_atoms, &figure_links) {
            return true;
        }
        refine(laid, n, c, &mut sheet_atoms, &mut sheet_links);
        refine(parts, m, d, &mut figure_atoms, &mut figure_links);
    }
    let last = total(n, c, &sheet_atoms, &sheet_links);
    if last != total(m, d, &figure_atoms, &figure_links) {
        return true;
    }
    atom_sets(&sheet_atoms, n, &figure_atoms, m, atoms);
    link_sets(
        &sheet_links,
        sheet.class_count,
        &figure_links,
        figure.class_count,
        links,
    );
    false
}
