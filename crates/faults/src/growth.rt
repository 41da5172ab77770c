// A component of the sheet atoms that no figure atom takes: atoms that meet at a sheet link to which no
// figure link goes. It is held in arrays that are lent: `order`, its atoms as they were reached; `way`, for
// each of them a mark of the link over which and the atom from which it was reached, else 0; `seen`, 1 for
// each link looked at; `cuts`, 0 for each context with a port at all of those where a figure link goes, else
// a mark of the link that has none and of its atom. Of a mark nothing is promised but that it is not 0.
ghost use Rattle.std.specs.Prelude.{◌≡◌, ◌+◌, ◌-◌, ◌<◌, ◌≤◌, length, get_or, replicate};
ghost use Rattle.rows.specs.Limits.{sheet_atom_limit, sheet_link_limit, figure_contexts, context_room};
ghost use Rattle.candidates.specs.Laid.{Rowed, laid_atom};
ghost use Rattle.stepping.specs.Chains.{node_of, Falls};
ghost use Rattle.faults.specs.Grows.{growth, Sized, Longer, WithAtoms, WithLink, WithLinks, Enlarged, Whole};

use candidates::LAID;
use rows::Sheet;
use stepping::contexts::cut_at;
use stepping::{CHAINS, PORTS};

// All atoms on link y, which was reached from another, with this mark.
fn with_atoms(
    order: &mut [u8; Sheet::ATOMS],
    way: &mut [u16; Sheet::ATOMS],
    count: usize,
    chains: &[u16; CHAINS],
    y: usize,
    atoms: usize,
    mark: u16,
) -> usize
    requires { (y < sheet_link_limit) × (atoms ≤ sheet_atom_limit) × Sized atoms (growth order.old count way.old) × (1 ≤ mark) × Falls (node_of atoms 0) chains.now }
    ensures { Sized atoms (growth order.new result way.new) × Longer (growth order.old count way.old) (growth order.new result way.new) × WithAtoms chains.now y atoms 0 (growth order.old count way.old) (growth order.new result way.new) }
{
    let mut next = count;
    let mut v = chains[y] as usize;
    while v != 0 {
        let i = (v - Sheet::LINKS) / Sheet::MOST_LINKS;
        if way[i] == 0 {
            order[next] = i as u8;
            way[i] = mark;
            next += 1;
        }
        v = chains[v] as usize;
    }
    next
}

// A link of a member is looked at: its atoms join, or contexts with no port there leave.
fn with_link(
    order: &mut [u8; Sheet::ATOMS],
    way: &mut [u16; Sheet::ATOMS],
    seen: &mut [u8; Sheet::LINKS],
    cuts: &mut [u16; Sheet::CONTEXT_ROOM],
    count: usize,
    chains: &[u16; CHAINS],
    used: &[u8; Sheet::LINKS],
    ports: &[u8; PORTS],
    y: usize,
    atoms: usize,
    contexts: usize,
    from: usize,
) -> usize
    requires { (y < sheet_link_limit) × (atoms ≤ sheet_atom_limit) × (contexts ≤ figure_contexts) × Sized atoms (growth order.old count way.old) × (length seen.old ≡ sheet_link_limit) × (length cuts.old ≡ context_room) × (from < sheet_atom_limit) × Falls (node_of atoms 0) chains.now }
    ensures { Enlarged atoms (growth order.old count way.old) seen.old (growth order.new result way.new) seen.new cuts.new × (get_or seen.new y 0 ≡ 1) × WithLink chains.now used.now ports.now y atoms contexts (growth order.old count way.old) seen.old cuts.old (growth order.new result way.new) seen.new cuts.new }
{
    if seen[y] == 1 {
        return count;
    }
    seen[y] = 1;
    let mark = ((y + 1) * Sheet::ATOMS + from) as u16;
    if used[y] == 1 {
        cut_at(cuts, ports, y, contexts, mark);
        return count;
    }
    with_atoms(order, way, count, chains, y, atoms, mark)
}

// All links of atom `from` are looked at.
fn with_links(
    order: &mut [u8; Sheet::ATOMS],
    way: &mut [u16; Sheet::ATOMS],
    seen: &mut [u8; Sheet::LINKS],
    cuts: &mut [u16; Sheet::CONTEXT_ROOM],
    count: usize,
    laid: &[u16; LAID],
    chains: &[u16; CHAINS],
    used: &[u8; Sheet::LINKS],
    ports: &[u8; PORTS],
    atoms: usize,
    contexts: usize,
    from: usize,
) -> usize
    requires { Rowed laid.now atoms × (from < atoms) × (contexts ≤ figure_contexts) × Sized atoms (growth order.old count way.old) × (length seen.old ≡ sheet_link_limit) × (length cuts.old ≡ context_room) × Falls (node_of atoms 0) chains.now }
    ensures { Enlarged atoms (growth order.old count way.old) seen.old (growth order.new result way.new) seen.new cuts.new × WithLinks chains.now used.now ports.now (laid_atom laid.now from).links (laid_atom laid.now from).count atoms contexts (growth order.old count way.old) seen.old cuts.old (growth order.new result way.new) seen.new cuts.new }
{
    let at = from * Sheet::FIELDS;
    let width = laid[at + 1] as usize;
    let mut next = count;
    for k in 0..width {
        let y = (laid[at + 2 + k] - 1) as usize;
        next = with_link(
            order, way, seen, cuts, next, chains, used, ports, y, atoms, contexts, from,
        );
    }
    next
}

// The component of an atom, and how many atoms it has. The arrays are as they are made.
pub(crate) fn grown(
    order: &mut [u8; Sheet::ATOMS],
    way: &mut [u16; Sheet::ATOMS],
    seen: &mut [u8; Sheet::LINKS],
    cuts: &mut [u16; Sheet::CONTEXT_ROOM],
    laid: &[u16; LAID],
    chains: &[u16; CHAINS],
    used: &[u8; Sheet::LINKS],
    ports: &[u8; PORTS],
    atoms: usize,
    contexts: usize,
    root: usize,
) -> usize
    requires { Rowed laid.now atoms × (root < atoms) × (contexts ≤ figure_contexts) × (length order.old ≡ sheet_atom_limit) × (way.old ≡ replicate sheet_atom_limit 0) × (seen.old ≡ replicate sheet_link_limit 0) × (cuts.old ≡ replicate context_room 0) × Falls (node_of atoms 0) chains.now }
    ensures { Sized atoms (growth order.new result way.new) × Whole laid.now atoms chains.now used.now ports.now root contexts (growth order.new result way.new) seen.new cuts.new }
{
    order[0] = root as u8;
    way[root] = 1;
    let mut count = 1;
    let mut head = 0;
    while head < count {
        let j = order[head] as usize;
        count = with_links(
            order, way, seen, cuts, count, laid, chains, used, ports, atoms, contexts, j,
        );
        head += 1;
    }
    count
}
