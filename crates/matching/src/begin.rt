// The search before anything is tried: atoms laid out, labels of kin, and the first sets, narrowed.
ghost use Rattle.std.specs.Prelude.{◌≡◌, [], ◌*◌, ◌-◌, length, get_or};
ghost use Rattle.rows.specs.Limits.{sheet_atom_limit, sheet_link_limit};
ghost use Rattle.placing.specs.Net.{Normal};
ghost use Rattle.network.specs.NetIn.{net_in, Fit};
ghost use Rattle.network.specs.Ready.{Ready};
ghost use Rattle.candidates.specs.Frames.{FrameOf, whole};
ghost use Rattle.candidates.specs.Kin.{RowLabels};
ghost use Rattle.candidates.specs.Laid.{LaidOut};
ghost use Rattle.narrowing.specs.Users.{UsersIn};
ghost use Rattle.matching.specs.Search.{Kept};

use candidates::empty::mark_lost;
use candidates::frame::{Frame, frame_of};
use candidates::laid::lay;
use candidates::ports::port_sets;
use candidates::{KIN, LAID, LINK_SETS};
use narrowing::PLACES;
use narrowing::narrow::narrow_all;
use rows::Sheet;
use starting::first::first_sets;
use starting::kin::kin_of;

// A net without its atoms, which are laid out.
pub(crate) fn lay_out(net: Sheet, laid: &mut [u16; LAID]) -> Frame
    requires { Fit net × Normal (net_in net) }
    ensures laid_out { LaidOut net laid.new net.atom_count }
    ensures frame { FrameOf net result }
{
    lay(net, laid);
    let contexts = net.contexts;
    let sets = port_sets(contexts, net.context_count);
    frame_of(net, sets)
}

// The labels of kin of a figure.
pub(crate) fn kin_in(figure: Frame, parts: &[u16; LAID]) -> [u16; KIN]
    requires { LaidOut (whole figure parts.now) parts.now figure.atom_count }
    ensures { RowLabels (net_in (whole figure parts.now)) (λ x. get_or result (x - 1) 0) }
{
    let ports = figure.contexts;
    kin_of(
        ports,
        figure.context_count,
        figure.class_count,
        parts,
        figure.atom_count,
    )
}

// The first sets, narrowed. Whether it is known that there is no good placing.
pub(crate) fn begin<'a>(
    sheet: Frame,
    figure: Frame,
    laid: &'a [u16; LAID],
    parts: &'a [u16; LAID],
    users: &'a [u64; PLACES],
    owners: &'a [u64; PLACES],
    kin: &'a [u16; KIN],
    atoms: &mut [u64; Sheet::ATOMS],
    links: &mut [u64; LINK_SETS],
) -> bool
    requires { Ready (whole sheet laid.now) (whole figure parts.now) × LaidOut (whole sheet laid.now) laid.now sheet.atom_count × LaidOut (whole figure parts.now) parts.now figure.atom_count × UsersIn laid.now sheet.atom_count users.now × UsersIn parts.now figure.atom_count owners.now × (length atoms.old ≡ sheet_atom_limit) × (length links.old ≡ sheet_link_limit * 2) }
    ensures { RowLabels (net_in (whole figure parts.now)) (λ x. get_or kin.now (x - 1) 0) → Kept (whole sheet laid.now) (whole figure parts.now) [] atoms.new links.new result }
{
    if first_sets(sheet, figure, laid, parts, users, owners, atoms, links) {
        return true;
    }
    if mark_lost(&figure.marked, figure.mark_count, links) {
        return true;
    }
    let n = sheet.atom_count;
    let m = figure.atom_count;
    narrow_all(users, owners, kin, laid, n, parts, m, atoms, links)
}
