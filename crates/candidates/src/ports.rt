// Contexts as the search sees them.
ghost use Rattle.std.specs.Prelude.{ℕ, ◌<◌, ◌≤◌, ◌≡◌, length};
ghost use Rattle.rows.specs.Limits.{sheet_link_limit, figure_contexts, context_room};
ghost use Rattle.network.specs.NetIn.{row_at, Numbered};
ghost use Rattle.candidates.specs.PortSets.{set_at, no_ports, LinksOf, SetOf};

use crate::pairs::with;
use rows::{Context, Sheet};

// The number of a context and the set of its links, counted from 0: neither their order matters to a placing, nor how
// often each stands in the row.
#[derive(Clone, Copy)]
pub struct PortSet {
    pub number: u16,
    pub links: [u64; 2],
}

fn set_of(links: [u16; Sheet::MOST_LINKS], count: usize) -> [u64; 2]
    requires { Numbered sheet_link_limit count links }
    ensures { LinksOf links count result }
{
    let mut set = [0u64; 2];
    for k in 0..count {
        let more = with(set, (links[k] - 1) as usize);
        set = more;
    }
    set
}

// The sets of the first `count` contexts, and behind them none.
pub fn port_sets(
    contexts: [Context; Sheet::CONTEXT_ROOM],
    count: usize,
) -> [PortSet; Sheet::CONTEXT_ROOM]
    requires { (count ≤ figure_contexts) × ((c : ℕ) → c < count → Numbered sheet_link_limit (row_at contexts c).count (row_at contexts c).links) }
    ensures { (length result ≡ context_room) × ((c : ℕ) → c < count → SetOf (row_at contexts c) (set_at result c)) × ((c : ℕ) → count ≤ c → c < context_room → set_at result c ≡ no_ports) }
{
    let none = PortSet {
        number: 0,
        links: [0; 2],
    };
    let mut sets = [none; Sheet::CONTEXT_ROOM];
    for c in 0..count {
        let row = contexts[c];
        let ports = row.links;
        let links = set_of(ports, row.count as usize);
        sets[c] = PortSet {
            number: row.number,
            links,
        };
    }
    sets
}
