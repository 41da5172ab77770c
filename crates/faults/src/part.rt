// A small connected part of a component that no context may hold: the ways from its first atom to the links
// where the contexts were cut off. What the marks of the component say of these is checked.
ghost use Rattle.std.specs.Prelude.{◌≡◌, true, List, ℕ, ◌<◌, ◌≤◌, length};
ghost use Rattle.rows.specs.Limits.{sheet_atom_limit, sheet_link_limit, figure_contexts};
ghost use Rattle.candidates.specs.Laid.{Rowed};
ghost use Rattle.faults.specs.Parts.{StandsOn, MemberOn, Stepped, Cut, Cuts};

use candidates::LAID;
use candidates::laid::laid_atom;
use rows::Sheet;
use stepping::PORTS;

fn wide(x: u16) -> usize {
    x as usize
}

// Link z, from 1, is a link of atom j.
pub fn stands(laid: &[u16; LAID], atoms: usize, j: usize, z: usize) -> bool
    requires { Rowed laid.now atoms }
    ensures { result ≡ true → (j < atoms) × StandsOn laid.now atoms j z }
{
    if j < atoms {
        let a = laid_atom(laid, j);
        let links = a.links;
        let count = a.count as usize;
        for k in 0..count {
            if links[k] as usize == z {
                return true;
            }
        }
    }
    false
}

// Atom a is a member, and link z one of its links.
fn member_on(
    members: &[u8; Sheet::ATOMS],
    laid: &[u16; LAID],
    atoms: usize,
    links: usize,
    a: usize,
    z: usize,
) -> bool
    requires { Rowed laid.now atoms × (a < sheet_atom_limit) }
    ensures { result ≡ true → MemberOn members.now laid.now atoms links a z }
{
    if members[a] != 1 {
        return false;
    }
    if z == 0 {
        return false;
    }
    if links < z {
        return false;
    }
    stands(laid, atoms, a, z)
}

// Atom j joins the part over the link and from the atom of its mark, where both stand on it and no figure link
// goes to it.
fn with_step(
    members: &mut [u8; Sheet::ATOMS],
    seen: &mut [u8; Sheet::LINKS],
    laid: &[u16; LAID],
    atoms: usize,
    links: usize,
    used: &[u8; Sheet::LINKS],
    mark: u16,
    j: usize,
)
    requires { Rowed laid.now atoms × (links ≤ sheet_link_limit) × (length members.old ≡ sheet_atom_limit) × (length seen.old ≡ sheet_link_limit) }
    ensures { Stepped laid.now atoms links used.now members.old seen.old members.new seen.new }
{
    let z = wide(mark) / Sheet::ATOMS;
    let a = wide(mark) % Sheet::ATOMS;
    if member_on(members, laid, atoms, links, a, z) {
        if used[z - 1] != 1 {
            if stands(laid, atoms, j, z) {
                seen[z - 1] = 1;
                members[j] = 1;
                return;
            }
        }
    }
}

// The atoms from an atom back to a member, and how many.
fn way_back(
    path: &mut [u16; Sheet::ATOMS],
    members: &[u8; Sheet::ATOMS],
    way: &[u16; Sheet::ATOMS],
    from: usize,
) -> usize
    requires { from < sheet_atom_limit }
    ensures { result ≤ sheet_atom_limit }
{
    let mut j = from;
    for n in 0..Sheet::ATOMS {
        if members[j] == 1 {
            return n;
        }
        path[n] = j as u16;
        j = wide(way[j]) % Sheet::ATOMS;
    }
    Sheet::ATOMS
}

// The atoms on the way to an atom join.
fn with_way(
    members: &mut [u8; Sheet::ATOMS],
    seen: &mut [u8; Sheet::LINKS],
    laid: &[u16; LAID],
    atoms: usize,
    links: usize,
    used: &[u8; Sheet::LINKS],
    way: &[u16; Sheet::ATOMS],
    from: usize,
)
    requires { Rowed laid.now atoms × (links ≤ sheet_link_limit) × (from < sheet_atom_limit) × (length members.old ≡ sheet_atom_limit) × (length seen.old ≡ sheet_link_limit) }
    ensures { Stepped laid.now atoms links used.now members.old seen.old members.new seen.new }
{
    let mut path = [0u16; Sheet::ATOMS];
    let n = way_back(&mut path, members, way, from);
    for i in (0..n).rev() {
        let j = wide(path[i]) % Sheet::ATOMS;
        with_step(members, seen, laid, atoms, links, used, way[j], j);
    }
}

// The way to the atom of a mark joins, and its link is looked at; false where context c is not cut off there.
fn with_cut(
    members: &mut [u8; Sheet::ATOMS],
    seen: &mut [u8; Sheet::LINKS],
    laid: &[u16; LAID],
    atoms: usize,
    links: usize,
    used: &[u8; Sheet::LINKS],
    ports: &[u8; PORTS],
    way: &[u16; Sheet::ATOMS],
    c: usize,
    mark: u16,
) -> bool
    requires { Rowed laid.now atoms × (links ≤ sheet_link_limit) × (c < figure_contexts) × (length members.old ≡ sheet_atom_limit) × (length seen.old ≡ sheet_link_limit) }
    ensures { Stepped laid.now atoms links used.now members.old seen.old members.new seen.new × (result ≡ true → Cut seen.new used.now ports.now links c) }
{
    let z = wide(mark) / Sheet::ATOMS;
    let j = wide(mark) % Sheet::ATOMS;
    with_way(members, seen, laid, atoms, links, used, way, j);
    if member_on(members, laid, atoms, links, j, z) {
        if used[z - 1] == 1 {
            if ports[c * Sheet::LINKS + (z - 1)] != 1 {
                seen[z - 1] = 1;
                return true;
            }
        }
    }
    false
}

// The links of a small part, or of the whole component, which are `all`.
pub(crate) fn part(
    laid: &[u16; LAID],
    atoms: usize,
    links: usize,
    way: &[u16; Sheet::ATOMS],
    cuts: &[u16; Sheet::CONTEXT_ROOM],
    all: [u8; Sheet::LINKS],
    used: &[u8; Sheet::LINKS],
    ports: &[u8; PORTS],
    root: usize,
    contexts: usize,
) -> [u8; Sheet::LINKS]
    requires { Rowed laid.now atoms × (links ≤ sheet_link_limit) × (root < atoms) × (contexts ≤ figure_contexts) }
    ensures { (chains : List ℕ) → Cuts laid.now atoms links chains used.now ports.now root contexts all result }
{
    let mut members = [0u8; Sheet::ATOMS];
    let mut seen = [0u8; Sheet::LINKS];
    members[root] = 1;
    for c in 0..contexts {
        if !with_cut(
            &mut members,
            &mut seen,
            laid,
            atoms,
            links,
            used,
            ports,
            way,
            c,
            cuts[c],
        ) {
            return all;
        }
    }
    seen
}
