// Which contexts may hold a component: those with a port at each of its links where figure links go. `cuts`
// has 0 for each of these, and for each other a mark of the link where it was cut off first.
ghost use Rattle.std.specs.Prelude.{◌≡◌, ◌↔◌, ℕ, ◌+◌, ◌*◌, ◌<◌, ◌≤◌, length, get_or};
ghost use Rattle.rows.specs.Limits.{sheet_link_limit, figure_contexts, context_room};
ghost use Rattle.stepping.specs.Contexts.{number_of, Least};

use crate::PORTS;
use candidates::ports::PortSet;
use rows::Sheet;

// What a context has after a link, by its port there and what it had.
fn cut_by(port: u8, cut: u16, mark: u16) -> u16
    requires { 1 ≤ mark }
    ensures { (result ≡ 0) ↔ ((cut ≡ 0) × (port ≡ 1)) }
{
    if port == 1 {
        return cut;
    }
    if cut != 0 {
        return cut;
    }
    mark
}

// Those that have no port at y are cut off there.
pub fn cut_at(
    cuts: &mut [u16; Sheet::CONTEXT_ROOM],
    ports: &[u8; PORTS],
    y: usize,
    contexts: usize,
    mark: u16,
)
    requires { (y < sheet_link_limit) × (contexts ≤ figure_contexts) × (length cuts.old ≡ context_room) × (1 ≤ mark) }
    ensures { (length cuts.new ≡ context_room) × ((c : ℕ) → c < contexts → (get_or cuts.new c 0 ≡ 0) ↔ ((get_or cuts.old c 0 ≡ 0) × (get_or ports.now (c * sheet_link_limit + y) 0 ≡ 1))) }
{
    for c in 0..contexts {
        cuts[c] = cut_by(ports[c * Sheet::LINKS + y], cuts[c], mark);
    }
}

// The numbers of the first `count` contexts.
pub fn numbers(contexts: [PortSet; Sheet::CONTEXT_ROOM], count: usize) -> [u16; Sheet::CONTEXT_ROOM]
    requires { (count ≤ figure_contexts) × (length contexts ≡ context_room) }
    ensures { (c : ℕ) → c < count → get_or result c 0 ≡ number_of contexts c }
{
    let mut list = [0u16; Sheet::CONTEXT_ROOM];
    for c in 0..count {
        list[c] = contexts[c].number;
    }
    list
}

// Of the contexts that are left, among the first `count`, the row of one with the least number; `count` where
// none is left.
pub fn least(
    numbers: &[u16; Sheet::CONTEXT_ROOM],
    count: usize,
    cuts: &[u16; Sheet::CONTEXT_ROOM],
) -> usize
    requires { count ≤ figure_contexts }
    ensures { (result ≤ count) × Least numbers.now count cuts.now count result }
{
    let mut best = count;
    for c in 0..count {
        if cuts[c] == 0 {
            if best == count {
                best = c;
            } else if numbers[c] < numbers[best] {
                best = c;
            }
        }
    }
    best
}
