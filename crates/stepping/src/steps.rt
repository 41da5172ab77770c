// Figure links that go to one sheet link: are they linked by steps, each between two links of one context?
ghost use Rattle.std.specs.Prelude.{◌≡◌, true, ◌≢◌, ℕ, ◌+◌, ◌<◌, ◌≤◌, length, get_or};
ghost use Rattle.rows.specs.Limits.{sheet_link_limit};
ghost use Rattle.candidates.specs.Words.{pair_digits, InPair};
ghost use Rattle.candidates.specs.PortSets.{Below, Ports};
ghost use Rattle.stepping.specs.Flags.{Within};
ghost use Rattle.stepping.specs.Labels.{Relabelled, Bounded, Grew, GrewWith, Tied, AllTied, Labelled, AllAlone, Apart};

use candidates::pairs::{first_link, is_empty, without_link};
use candidates::ports::PortSet;
use rows::Sheet;

// Each link its own label.
fn own_labels(labels: &mut [u16; Sheet::LINKS])
    requires { length labels.old ≡ sheet_link_limit }
    ensures { (length labels.new ≡ sheet_link_limit) × ((x : ℕ) → x < sheet_link_limit → get_or labels.new x 0 ≡ x + 1) }
{
    for x in 0..Sheet::LINKS {
        labels[x] = (x + 1) as u16;
    }
}

// One label, which only links among the first n have, for another.
fn relabel(labels: &mut [u16; Sheet::LINKS], n: usize, from: u16, to: u16)
    requires { (n ≤ sheet_link_limit) × (length labels.old ≡ sheet_link_limit) × ((x : ℕ) → n ≤ x → x < sheet_link_limit → get_or labels.old x 0 ≢ from) }
    ensures { (length labels.new ≡ sheet_link_limit) × Relabelled labels.old labels.new from to }
{
    for x in 0..n {
        if labels[x] == from {
            labels[x] = to;
        }
    }
}

// Link a with each link of the set that goes to the same sheet link.
fn with_port(
    labels: &mut [u16; Sheet::LINKS],
    to: &[u16; Sheet::LINKS],
    set: [u64; 2],
    a: usize,
    n: usize,
)
    requires { (a < n) × Below n set × (length labels.old ≡ sheet_link_limit) × (n ≤ sheet_link_limit) × Bounded n labels.old }
    ensures { (length labels.new ≡ sheet_link_limit) × GrewWith to.now set a labels.old labels.new × ((z : ℕ) → z < pair_digits → InPair set z → Tied to.now labels.new a z) × Bounded n labels.new }
{
    let y = to[a];
    let mut rest = set;
    while !is_empty(rest) {
        let b = first_link(rest);
        let less = without_link(rest, b);
        rest = less;
        if to[b] == y {
            let from = labels[b];
            let label = labels[a];
            if from != label {
                relabel(labels, n, from, label);
            }
        }
    }
}

// The links of a context with each other.
fn with_context(labels: &mut [u16; Sheet::LINKS], to: &[u16; Sheet::LINKS], set: [u64; 2], n: usize)
    requires { Below n set × (length labels.old ≡ sheet_link_limit) × (n ≤ sheet_link_limit) × Bounded n labels.old }
    ensures { (length labels.new ≡ sheet_link_limit) × Grew to.now set labels.old labels.new × AllTied to.now set labels.new × Bounded n labels.new }
{
    let mut rest = set;
    while !is_empty(rest) {
        let a = first_link(rest);
        let less = without_link(rest, a);
        rest = less;
        with_port(labels, to, rest, a, n);
    }
}

// Labels of all links, by the ports of the contexts, which are among the first n links.
pub fn step_labels(
    labels: &mut [u16; Sheet::LINKS],
    to: &[u16; Sheet::LINKS],
    contexts: [PortSet; Sheet::CONTEXT_ROOM],
    count: usize,
    n: usize,
)
    requires { Ports contexts count n × (length labels.old ≡ sheet_link_limit) }
    ensures { (length labels.new ≡ sheet_link_limit) × Labelled contexts count to.now labels.new }
{
    own_labels(labels);
    for c in 0..count {
        let row = contexts[c];
        let ports = row.links;
        with_context(labels, to, ports, n);
    }
}

// Whether no two of the first links go to one sheet link.
fn all_alone(count: usize, to: &[u16; Sheet::LINKS], none: u16) -> bool
    requires { (count ≤ sheet_link_limit) × (none ≤ sheet_link_limit + 1) × Within none count to.now }
    ensures { result ≡ true → AllAlone count to.now none }
{
    let mut met = [0u8; Sheet::LINKS];
    for x in 0..count {
        let y = to[x];
        if y != none {
            let at = (y - 1) as usize;
            if met[at] == 1 {
                return false;
            }
            met[at] = 1;
        }
    }
    true
}

// A sheet link, from 0, at which two figure links have different labels.
fn untied(
    contexts: [PortSet; Sheet::CONTEXT_ROOM],
    rows: usize,
    count: usize,
    to: &[u16; Sheet::LINKS],
    none: u16,
) -> Option<usize>
    requires { Ports contexts rows count × (none ≤ sheet_link_limit + 1) × Within none count to.now }
    ensures { Apart contexts rows count to.now none result }
{
    let mut labels = [0u16; Sheet::LINKS];
    step_labels(&mut labels, to, contexts, rows, count);
    let mut owner = [0u16; Sheet::LINKS];
    for x in 0..count {
        let y = to[x];
        if y != none {
            let at = (y - 1) as usize;
            let first = owner[at];
            if first == 0 {
                owner[at] = (x + 1) as u16;
            } else if labels[(first - 1) as usize] != labels[x] {
                return Some(at);
            }
        }
    }
    None
}

// A sheet link, from 0, at which two figure links meet that no steps link. Where no two meet, no link needs a label.
pub fn apart(
    contexts: [PortSet; Sheet::CONTEXT_ROOM],
    rows: usize,
    count: usize,
    to: &[u16; Sheet::LINKS],
    none: u16,
) -> Option<usize>
    requires { Ports contexts rows count × (none ≤ sheet_link_limit + 1) × Within none count to.now }
    ensures { Apart contexts rows count to.now none result }
{
    if all_alone(count, to, none) {
        return None;
    }
    untied(contexts, rows, count, to, none)
}
