// What a net says of each of its links: how many places of atoms it has, whether a context has it, and
// which link has a mark.
ghost use Rattle.std.specs.Prelude.{◌≡◌, ℕ, ◌+◌, ◌*◌, ◌<◌, ◌≤◌, get_or, take};
ghost use Rattle.hyperlmntal.specs.Link.{◌∈◌};
ghost use Rattle.rows.specs.Format.{most_links};
ghost use Rattle.rows.specs.Limits.{sheet_atom_limit, sheet_link_limit};
ghost use Rattle.rows.specs.declared.Sheet.{Sheet as NormalForm};
ghost use Rattle.network.specs.NetIn.{net_in, Used};
ghost use Rattle.candidates.specs.Laid.{Rowed, LaidOut};
ghost use Rattle.candidates.specs.Marks.{MarkLinks, MarksIn};
ghost use Rattle.candidates.specs.PortSets.{Below, Ports};
ghost use Rattle.candidates.specs.Tables.{StaysCleared};
ghost use Rattle.starting.specs.Count.{count};
ghost use Rattle.starting.specs.Steps.{places_of, Tally, Cleared, PortsCleared};

use candidates::LAID;
use candidates::laid::laid_atom;
use candidates::pairs::{first_link, is_empty, without_link};
use candidates::ports::PortSet;
use rows::{Atom, Sheet};

// An atom's places added to the counts, each of which is at most n.
fn count_places(atom: Atom, counts: &mut [u16; Sheet::LINKS], n: usize)
    requires { Used sheet_link_limit atom.count atom.links × (n ≤ sheet_atom_limit * most_links) × Tally counts.old n }
    ensures { Tally counts.new (n + most_links) × ((x : ℕ) → x < sheet_link_limit → get_or counts.new x 0 ≡ get_or counts.old x 0 + count (x + 1) (take atom.count atom.links)) }
{
    let count = atom.count as usize;
    for k in 0..count {
        let x = atom.links[k] as usize;
        counts[x - 1] += 1;
    }
}

// How many places of n atoms each link has, into a table of zeros.
pub(crate) fn place_counts(laid: &[u16; LAID], n: usize, counts: &mut [u16; Sheet::LINKS])
    requires { Rowed laid.now n × Tally counts.old 0 }
    ensures { (net : NormalForm) → LaidOut net laid.now n → (x : ℕ) → x < sheet_link_limit → get_or counts.new x 0 ≡ places_of net x }
{
    for i in 0..n {
        let atom = laid_atom(laid, i);
        count_places(atom, counts, i * Sheet::MOST_LINKS);
    }
}

// 0 at the links of a set.
fn clear_links(set: [u64; 2], closed: &mut [u8; Sheet::LINKS])
    requires { Below sheet_link_limit set }
    ensures kept { StaysCleared closed.old closed.new }
    ensures cleared { Cleared set closed.new }
{
    let mut rest = set;
    while !is_empty(rest) {
        let x = first_link(rest);
        let less = without_link(rest, x);
        rest = less;
        closed[x] = 0;
    }
}

// 0 at the links of the first n contexts; the other links are closed, and stay 1.
pub(crate) fn closed_links(
    contexts: [PortSet; Sheet::CONTEXT_ROOM],
    n: usize,
    closed: &mut [u8; Sheet::LINKS],
)
    requires { (links : ℕ) × Ports contexts n links }
    ensures { PortsCleared contexts n closed.new }
{
    for i in 0..n {
        let context = contexts[i];
        let links = context.links;
        clear_links(links, closed);
    }
}

// The link of mark m among n marks, or 0.
pub(crate) fn link_of<'a>(
    marks: &'a [u16; Sheet::MARK_ROOM],
    marked: &'a [u16; Sheet::MARK_ROOM],
    n: usize,
    m: u16,
) -> usize
    requires { MarkLinks marked.now n }
    ensures within { result ≤ sheet_link_limit }
    ensures found { (net : NormalForm) → MarksIn net marks.now marked.now n → (x : ℕ) → (x, m) ∈ (net_in net).marks → x ≡ result }
{
    for p in 0..n {
        if marks[p] == m {
            return marked[p] as usize;
        }
    }
    0
}
