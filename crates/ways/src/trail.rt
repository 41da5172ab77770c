// The ways that are laid out, followed back from their ends. The mark of a step from one link to another, through an
// atom, has the atom, its place on the one link, and its place on the other. `guards` has 1 for the guarded links.
ghost use Rattle.std.specs.Prelude.{◌≡◌, suc, ◌+◌, ◌*◌, ◌<◌, ◌≤◌, length, slice_index, IfSome};
ghost use Rattle.rows.specs.Limits.{sheet_atom_limit, sheet_link_limit};
ghost use Rattle.ways.specs.Trails.{from_one, or_zero, row_of, LaidStep, WaysIn, PassesBack, Follows};

use crate::TRAILS;
use crate::flow_network::FlowNetwork;
use rows::Sheet;

pub(crate) fn wide(x: u16) -> usize
    ensures { (result ≡ x) × (result < 65536) }
{
    x as usize
}

// The row, from 0, of the atom of a step with this mark.
pub(crate) fn row_of(mark: u16) -> usize
    ensures { result ≡ row_of mark }
{
    wide(mark) / Sheet::MOST_LINKS / Sheet::MOST_LINKS
}

// The link from which a step with this mark leads to z, through an atom that may be passed.
fn step_back(net: &FlowNetwork<'_>, mark: u16, z: usize) -> Option<usize>
    requires { z < sheet_link_limit }
    ensures { IfSome result (λ y. (y < sheet_link_limit) × LaidStep net.now.laid.now net.now.taken.now net.now.atoms (suc y) (suc (row_of mark)) (suc z)) }
{
    let j = row_of(mark);
    let from = wide(mark) / Sheet::MOST_LINKS % Sheet::MOST_LINKS;
    let into = wide(mark) % Sheet::MOST_LINKS;
    if net.atoms <= j {
        return None;
    }
    if net.taken[j] == 1 {
        return None;
    }
    let at = j * Sheet::FIELDS;
    let width = wide(net.laid[at + 1]);
    if width <= from {
        return None;
    }
    if width <= into {
        return None;
    }
    if wide(net.laid[at + (2 + into)]) != z + 1 {
        return None;
    }
    Some(wide(net.laid[at + (2 + from)]) - 1)
}

// The same, and the step's atom is passed; none also where it is guarded and was passed before.
fn pass_back(
    passed: &mut [u8; Sheet::ATOMS],
    net: &FlowNetwork<'_>,
    mark: u16,
    z: usize,
) -> Option<usize>
    requires { (z < sheet_link_limit) × (length passed.old ≡ sheet_atom_limit) }
    ensures { PassesBack net.now.laid.now net.now.taken.now net.now.atoms passed.old passed.new z (from_one result) }
{
    let y = step_back(net, mark, z)?;
    let j = row_of(mark);
    if passed[j] == 2 {
        return None;
    }
    passed[j] = net.taken[j];
    Some(y)
}

// From an end back to a start, over links to which no link on both halves goes, and guarded ones that were not seen.
// The steps are those from place `from` on; the place behind them, if they lead to a start.
fn follow(
    seen: &mut [u8; Sheet::LINKS],
    passed: &mut [u8; Sheet::ATOMS],
    net: &FlowNetwork<'_>,
    guards: &[u8; Sheet::LINKS],
    trails: &[u16; TRAILS],
    from: usize,
    end: usize,
) -> Option<usize>
    requires { (end < net.now.links) × (length seen.old ≡ sheet_link_limit) × (length passed.old ≡ sheet_atom_limit) × (slice_index net.now.sorted.now (2 * sheet_link_limit + end) ≡ 1) }
    ensures follows { Follows net.now.laid.now net.now.taken.now net.now.atoms guards.now net.now.links net.now.sorted.now seen.old passed.old seen.new passed.new (or_zero result) }
    ensures behind { IfSome result (λ at. from ≤ at) }
{
    let mut z = end;
    for at in from..TRAILS {
        if net.links <= z {
            return None;
        }
        if net.sorted[3 * Sheet::LINKS + z] == 1 {
            return None;
        }
        if seen[z] == 1 {
            return None;
        }
        seen[z] = guards[z];
        if net.sorted[Sheet::LINKS + z] == 1 {
            return Some(at);
        }
        z = pass_back(passed, net, trails[at], z)?;
    }
    None
}

// How many ways are laid out, no two of them with a guarded link or a guarded atom in common.
pub(crate) fn ways(
    net: &FlowNetwork<'_>,
    guards: &[u8; Sheet::LINKS],
    trails: &[u16; TRAILS],
) -> usize
    ensures { WaysIn net.now.laid.now net.now.taken.now net.now.atoms guards.now net.now.links net.now.sorted.now result }
{
    let mut seen = [0u8; Sheet::LINKS];
    let mut passed = [0u8; Sheet::ATOMS];
    let mut n = 0;
    let mut at = 0;
    while at < TRAILS {
        let end = wide(trails[at]);
        if end == 0 {
            return n;
        }
        if net.links < end {
            return n;
        }
        if net.sorted[2 * Sheet::LINKS + (end - 1)] != 1 {
            return n;
        }
        let Some(next) = follow(&mut seen, &mut passed, net, guards, trails, at + 1, end - 1) else {
            return n;
        };
        at = next;
        n += 1;
    }
    n
}
