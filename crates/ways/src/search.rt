// A search for one way more, from links to atoms and from atoms to links, over free ones and back along the ways that
// were found before.
// `flow` has for each place of an atom how many ways lead over it, from its link to the atom as 1, 2, .., from the atom
// to its link as 255, 254, ..; from USES on, how many ways are on each vertex, and from ENDED on, how many end at each
// link.
// A guarded vertex that is on a way can be entered besides, only to turn that way elsewhere: the search then goes back
// where the way came from. That is the second state of the vertex.
ghost use Rattle.std.specs.Prelude.{◌<◌, ◌≤◌, IfSome};
ghost use Rattle.rows.specs.Limits.{sheet_atom_limit, sheet_link_limit};
ghost use Rattle.ways.specs.Flow.{place_count, state_count};

use crate::flow_network::FlowNetwork;
use crate::guards::flag_of;
use crate::look::{Look, START, VERTICES, second_state, vertex_of};
use crate::row::link_at;
use crate::trail::wide;
use rows::Sheet;

pub(crate) const PLACES: usize = Sheet::ATOMS * Sheet::MOST_LINKS;

pub(crate) const USES: usize = PLACES;

pub(crate) const ENDED: usize = USES + VERTICES;

pub(crate) const FLOW: usize = ENDED + Sheet::LINKS;

// A number from here on stands for ways that lead from the atom to the link.
pub(crate) const OUTWARD: u8 = 128;

// Is link y guarded, and on a way?
fn occupied(net: &FlowNetwork<'_>, flow: &[u8; FLOW], y: usize) -> bool
    requires { y < sheet_link_limit }
{
    if flow[USES + y] == 0 {
        return false;
    }
    flag_of(net.guarded, y) == 1
}

// It is to start at y, if y is a start and free.
fn start(look: &mut Look, net: &FlowNetwork<'_>, flow: &[u8; FLOW], y: usize)
    requires { y < sheet_link_limit }
{
    if net.sorted[Sheet::LINKS + y] != 1 {
        return;
    }
    if net.sorted[3 * Sheet::LINKS + y] == 1 {
        return;
    }
    if occupied(net, flow, y) {
        return;
    }
    look.reach(y, START);
}

// Over a place from its link, left in this state, to its atom. In the second state only back along a way.
fn to_atom(look: &mut Look, net: &FlowNetwork<'_>, flow: &[u8; FLOW], place: usize, second: usize)
    requires { (place < place_count) × (second < 2) }
{
    let row = place / Sheet::MOST_LINKS;
    let from = (2 * place + second + 1) as u16;
    let atom = Sheet::LINKS + row;
    if OUTWARD <= flow[place] {
        look.reach(atom, from);
        return;
    }
    if second == 1 {
        return;
    }
    if net.taken[row] == 1 {
        return;
    }
    if net.taken[row] == 2 {
        if flow[USES + atom] != 0 {
            look.reach(VERTICES + atom, from);
            return;
        }
    }
    look.reach(atom, from);
}

// Over a place from its atom, left in this state, to its link; but to no start, and to no link to which a link on both
// halves goes. In the second state only back along a way.
fn to_link(look: &mut Look, net: &FlowNetwork<'_>, flow: &[u8; FLOW], place: usize, second: usize)
    requires { (place < place_count) × (second < 2) }
{
    let z = link_at(net.laid, place);
    let from = (2 * place + second + 1) as u16;
    let over = flow[place];
    if over != 0 {
        if over < OUTWARD {
            look.reach(z, from);
            return;
        }
    }
    if second == 1 {
        return;
    }
    if net.sorted[Sheet::LINKS + z] == 1 {
        return;
    }
    if net.sorted[3 * Sheet::LINKS + z] == 1 {
        return;
    }
    if occupied(net, flow, z) {
        look.reach(VERTICES + z, from);
        return;
    }
    look.reach(z, from);
}

// On from link y in this state.
fn from_link(look: &mut Look, net: &FlowNetwork<'_>, flow: &[u8; FLOW], y: usize, second: usize)
    requires { (y < sheet_link_limit) × (second < 2) }
{
    let mut v = wide(net.chains[y]);
    while Sheet::LINKS <= v {
        to_atom(look, net, flow, v - Sheet::LINKS, second);
        v = wide(net.chains[v]);
    }
}

// On from the atom of this row in this state.
fn from_atom(look: &mut Look, net: &FlowNetwork<'_>, flow: &[u8; FLOW], row: usize, second: usize)
    requires { (row < sheet_atom_limit) × (second < 2) }
{
    let width = wide(net.laid[row * Sheet::FIELDS + 1]);
    for k in 0..Sheet::MOST_LINKS {
        if width <= k {
            return;
        }
        to_link(look, net, flow, row * Sheet::MOST_LINKS + k, second);
    }
}

// On from this state.
fn onward(look: &mut Look, net: &FlowNetwork<'_>, flow: &[u8; FLOW], state: usize)
    requires { state < state_count }
{
    let second = second_state(state);
    let v = vertex_of(state);
    if v < Sheet::LINKS {
        from_link(look, net, flow, v, second);
        return;
    }
    from_atom(look, net, flow, v - Sheet::LINKS, second);
}

// The first end among the states that were reached from number `from` on.
fn end_among(look: &Look, net: &FlowNetwork<'_>, from: usize) -> Option<usize>
    ensures { IfSome result (λ y. y < sheet_link_limit) }
{
    for n in from..look.count {
        let state = look.state(n);
        if state < Sheet::LINKS {
            if net.sorted[2 * Sheet::LINKS + state] == 1 {
                return Some(state);
            }
        }
    }
    None
}

// From the free starts to a free end, if the search comes to one.
pub(crate) fn search(look: &mut Look, net: &FlowNetwork<'_>, flow: &[u8; FLOW]) -> Option<usize>
    ensures { IfSome result (λ y. y < sheet_link_limit) }
{
    for s in 0..net.links {
        start(look, net, flow, s);
    }
    let mut head = 0;
    let mut seen = 0;
    while head < look.count {
        let end = end_among(look, net, seen);
        if end.is_some() {
            return end;
        }
        seen = look.count;
        onward(look, net, flow, look.state(head));
        head += 1;
    }
    None
}
