// So many ways, if there are as many, found by augmenting, and laid out. They are a guess, which `trail` checks.
ghost use Rattle.std.specs.Prelude.{◌≡◌, ◌<◌, ◌≤◌, length};
ghost use Rattle.rows.specs.Limits.{sheet_link_limit};
ghost use Rattle.ways.specs.Flow.{place_count, flow_room, state_count};
ghost use Rattle.ways.specs.Trails.{trail_room};

use crate::TRAILS;
use crate::flow_network::FlowNetwork;
use crate::look::{Look, START, STATES, VERTICES};
use crate::row::link_at;
use crate::search::{ENDED, FLOW, OUTWARD, PLACES, USES, search};
use crate::trail::wide;
use candidates::LAID;
use rows::Sheet;

fn more(flow: &mut [u8; FLOW], at: usize)
    requires { at < flow_room }
{
    flow[at] = std::num::wrapping_add_u8(flow[at], 1);
}

fn less(flow: &mut [u8; FLOW], at: usize)
    requires { at < flow_room }
{
    flow[at] = std::num::wrapping_sub_u8(flow[at], 1);
}

// One way more leads over a place to its atom, or one less back from it.
fn lead_in(flow: &mut [u8; FLOW], laid: &[u16; LAID], place: usize)
    requires { place < place_count }
{
    if OUTWARD <= flow[place] {
        less(flow, USES + link_at(laid, place));
    } else {
        more(flow, USES + (Sheet::LINKS + place / Sheet::MOST_LINKS));
    }
    more(flow, place);
}

// One way more leads over a place to its link, or one less from it.
fn lead_out(flow: &mut [u8; FLOW], laid: &[u16; LAID], place: usize)
    requires { place < place_count }
{
    let over = flow[place];
    if over == 0 {
        more(flow, USES + link_at(laid, place));
    } else if over < OUTWARD {
        less(flow, USES + (Sheet::LINKS + place / Sheet::MOST_LINKS));
    } else {
        more(flow, USES + link_at(laid, place));
    }
    less(flow, place);
}

// The step by which the search came to this state; the state before.
fn before(flow: &mut [u8; FLOW], laid: &[u16; LAID], from: usize, state: usize) -> usize
    requires { (from < 65536) × (state < state_count) }
    ensures { result < state_count }
{
    let place = from / 2 % PLACES;
    let second = from % 2 * VERTICES;
    if state % VERTICES < Sheet::LINKS {
        lead_out(flow, laid, place);
        return second + (Sheet::LINKS + place / Sheet::MOST_LINKS);
    }
    lead_in(flow, laid, place);
    second + link_at(laid, place)
}

// The ways with the one that ends at this link.
fn augment(flow: &mut [u8; FLOW], look: &Look, laid: &[u16; LAID], end: usize)
    requires { end < sheet_link_limit }
{
    more(flow, ENDED + end);
    let mut state = end;
    for _ in 0..STATES {
        let from = look.entry(state);
        if from == START {
            more(flow, USES + state % VERTICES);
            return;
        }
        if from == 0 {
            return;
        }
        state = before(flow, laid, wide(from) - 1, state);
    }
}

// The place over which a way leads to link z.
fn arrival(net: &FlowNetwork<'_>, flow: &[u8; FLOW], z: usize) -> usize
    requires { z < sheet_link_limit }
    ensures { result < place_count }
{
    let mut v = wide(net.chains[z]);
    while Sheet::LINKS <= v {
        if OUTWARD <= flow[v - Sheet::LINKS] {
            return v - Sheet::LINKS;
        }
        v = wide(net.chains[v]);
    }
    0
}

// The place of an atom, of the one at this place, over which a way leads to the atom.
fn departure(flow: &[u8; FLOW], place: usize) -> usize
    requires { place < place_count }
    ensures { result < place_count }
{
    let first = place / Sheet::MOST_LINKS * Sheet::MOST_LINKS;
    for k in 0..Sheet::MOST_LINKS {
        let over = flow[first + k];
        if over != 0 {
            if over < OUTWARD {
                return first + k;
            }
        }
    }
    place
}

// A way that ends at this link is laid out from `at` on and taken from the flow; the place behind it.
fn lay_way(
    trails: &mut [u16; TRAILS],
    at: usize,
    net: &FlowNetwork<'_>,
    flow: &mut [u8; FLOW],
    end: usize,
) -> usize
    requires { (at < trail_room) × (end < sheet_link_limit) × (length trails.old ≡ trail_room) }
    ensures { (at < result) × (result ≤ trail_room) × (length trails.new ≡ trail_room) }
{
    trails[at] = (end + 1) as u16;
    let mut z = end;
    for next in at + 1..TRAILS {
        if net.sorted[Sheet::LINKS + z] == 1 {
            return next;
        }
        let into = arrival(net, flow, z);
        let from = departure(flow, into);
        more(flow, into);
        less(flow, from);
        trails[next] = (from * Sheet::MOST_LINKS + into % Sheet::MOST_LINKS) as u16;
        z = link_at(net.laid, from);
    }
    TRAILS
}

// All ways of the flow are laid out, as far as there is room.
pub(crate) fn lay(trails: &mut [u16; TRAILS], net: &FlowNetwork<'_>, flow: &mut [u8; FLOW])
    requires { length trails.old ≡ trail_room }
    ensures { length trails.new ≡ trail_room }
{
    let mut at = 0;
    for z in 0..net.links {
        for _ in 0..flow[ENDED + z] {
            if at == TRAILS {
                return;
            }
            at = lay_way(trails, at, net, flow, z);
        }
    }
}

// Are there so many ways? Then they are in the flow.
pub(crate) fn find_ways(net: &FlowNetwork<'_>, flow: &mut [u8; FLOW], most: usize) -> bool {
    for _ in 0..most {
        let mut look = Look::new();
        match search(&mut look, net, flow) {
            None => return false,
            Some(end) => augment(flow, &look, net.laid, end),
        }
    }
    true
}
