// What is looked up while a component is grown.
ghost use Rattle.std.specs.Prelude.{◌≡◌, ◌↔◌, ◌⊎◌, ℕ, ◌+◌, ◌*◌, ◌<◌, ◌≤◌, length, get_or, replicate};
ghost use Rattle.rows.specs.Limits.{sheet_link_limit, figure_contexts, context_room};
ghost use Rattle.candidates.specs.PortSets.{Ports};
ghost use Rattle.stepping.specs.Contexts.{number_of};
ghost use Rattle.stepping.specs.Flags.{Within, Ported, PortOfSet, PortOfRow, PortOfNumber, SentTo};

use crate::PORTS;
use candidates::pairs::{first_link, is_empty, without_link};
use candidates::ports::PortSet;
use rows::Sheet;

// For each sheet link 1 where a figure link goes.
pub fn used_links(count: usize, to: &[u16; Sheet::LINKS], none: u16) -> [u8; Sheet::LINKS]
    requires { (count ≤ sheet_link_limit) × (none ≤ sheet_link_limit + 1) × Within none count to.now }
    ensures { (y : ℕ) → (get_or result y 0 ≡ 1) ↔ ((x : ℕ) × (x < count) × SentTo to.now none x y) }
{
    let mut flags = [0u8; Sheet::LINKS];
    for x in 0..count {
        let y = to[x];
        if y != none {
            flags[(y - 1) as usize] = 1;
        }
    }
    flags
}

// The sheet links to which the links of a set go, for context c.
fn port_row(table: &mut [u8; PORTS], c: usize, set: [u64; 2], to: &[u16; Sheet::LINKS], none: u16)
    requires { (c < context_room) × (none ≤ sheet_link_limit + 1) × Ported to.now none set × (length table.old ≡ context_room * sheet_link_limit) }
    ensures { (length table.new ≡ context_room * sheet_link_limit) × ((p : ℕ) → (get_or table.new p 0 ≡ 1) ↔ ((get_or table.old p 0 ≡ 1) ⊎ PortOfSet to.now none set c p)) }
{
    let mut rest = set;
    while !is_empty(rest) {
        let x = first_link(rest);
        let less = without_link(rest, x);
        rest = less;
        let y = to[x];
        if y != none {
            table[c * Sheet::LINKS + ((y - 1) as usize)] = 1;
        }
    }
}

// The same for each context with the number of this row.
fn port_rows(
    table: &mut [u8; PORTS],
    numbers: &[u16; Sheet::CONTEXT_ROOM],
    count: usize,
    row: PortSet,
    to: &[u16; Sheet::LINKS],
    none: u16,
)
    requires { (count ≤ figure_contexts) × (none ≤ sheet_link_limit + 1) × Ported to.now none row.links × (length table.old ≡ context_room * sheet_link_limit) }
    ensures { (length table.new ≡ context_room * sheet_link_limit) × ((p : ℕ) → (get_or table.new p 0 ≡ 1) ↔ ((get_or table.old p 0 ≡ 1) ⊎ PortOfRow numbers.now count row to.now none p)) }
{
    let ports = row.links;
    for c in 0..count {
        if numbers[c] == row.number {
            port_row(table, c, ports, to, none);
        }
    }
}

// For the context of row c and link y, both from 0: 1 at c * LINKS + y where a row with its number has a
// port that goes to y. The table is zeros before; `numbers` are those of the contexts.
pub fn port_table(
    table: &mut [u8; PORTS],
    numbers: &[u16; Sheet::CONTEXT_ROOM],
    contexts: [PortSet; Sheet::CONTEXT_ROOM],
    count: usize,
    to: &[u16; Sheet::LINKS],
    none: u16,
)
    requires { (none ≤ sheet_link_limit + 1) × ((links : ℕ) × Ports contexts count links × Within none links to.now) × (table.old ≡ replicate (context_room * sheet_link_limit) 0) × ((c : ℕ) → c < count → get_or numbers.now c 0 ≡ number_of contexts c) }
    ensures { (p : ℕ) → (get_or table.new p 0 ≡ 1) ↔ ((c : ℕ) × (c < count) × PortOfNumber contexts count to.now none c p) }
{
    for d in 0..count {
        let row = contexts[d];
        port_rows(table, numbers, count, row, to, none);
    }
}
