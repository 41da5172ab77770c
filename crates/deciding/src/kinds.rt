// Links of one kind stand on the same contexts.
ghost use Rattle.std.specs.Prelude.{ℕ, ◌<◌, ◌≤◌, ◌≡◌, length, get_or, replicate};
ghost use Rattle.rows.specs.Limits.{sheet_link_limit};
ghost use Rattle.rows.specs.declared.Sheet.{Sheet as NormalForm};
ghost use Rattle.candidates.specs.PortSets.{Below, Ports, ContextsIn};
ghost use Rattle.deciding.specs.Kinds.{FlagsOf, Doubled, KindsIn};

use candidates::pairs::{first_link, is_empty, without_link};
use candidates::ports::PortSet;
use rows::Sheet;

// A flag for each link of the set.
fn flag_links(flags: &mut [u8; Sheet::LINKS], set: [u64; 2])
    requires { Below sheet_link_limit set × (flags.old ≡ replicate sheet_link_limit 0) }
    ensures { FlagsOf set flags.new }
{
    let mut rest = set;
    while !is_empty(rest) {
        let x = first_link(rest);
        let less = without_link(rest, x);
        rest = less;
        flags[x] = 1;
    }
}

fn wide(x: u8) -> u16
    ensures { result ≡ x }
{
    x as u16
}

// Each number doubled, and its flag added.
fn double(kinds: &mut [u16; Sheet::LINKS], flags: &[u8; Sheet::LINKS])
    requires { (length kinds.old ≡ sheet_link_limit) × ((x : ℕ) → x < sheet_link_limit → (get_or kinds.old x 0 < 256) × (get_or flags.now x 0 ≤ 1)) }
    ensures { Doubled kinds.old flags.now kinds.new }
{
    for x in 0..Sheet::LINKS {
        let kind = kinds[x];
        kinds[x] = kind + kind + wide(flags[x]);
    }
}

// For each figure link the contexts on which it stands, as a sum of powers of two.
pub fn kinds(contexts: [PortSet; Sheet::CONTEXT_ROOM], rows: usize) -> [u16; Sheet::LINKS]
    requires { (links : ℕ) × Ports contexts rows links }
    ensures { (figure : NormalForm) (links : ℕ) → ContextsIn figure contexts rows links → KindsIn figure result }
{
    let mut k = [0u16; Sheet::LINKS];
    for c in 0..rows {
        let row = contexts[c];
        let links = row.links;
        let mut flags = [0u8; Sheet::LINKS];
        flag_links(&mut flags, links);
        double(&mut k, &flags);
    }
    k
}
