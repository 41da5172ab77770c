// What stands in the way of completing: sheet links to one of which an open figure link must go.
ghost use Rattle.std.specs.Prelude.{◌≡◌, true, List, ℕ, ◌+◌, ◌<◌, ◌≤◌, length, get_or};
ghost use Rattle.rows.specs.Limits.{sheet_atom_limit, sheet_link_limit, figure_contexts};
ghost use Rattle.candidates.specs.declared.ports.PortSet.{PortSet};
ghost use Rattle.rows.specs.declared.Sheet.{Sheet as NormalForm};
ghost use Rattle.candidates.specs.Laid.{Rowed};
ghost use Rattle.stepping.specs.Chains.{node_of, Falls};
ghost use Rattle.stepping.specs.Contexts.{number_of};
ghost use Rattle.faults.specs.Gives.{given, Gave, OneMore, Gives};
ghost use Rattle.faults.specs.Grows.{growth};
ghost use Rattle.faults.specs.Finds.{Over, FindsAll};

use crate::growth::grown;
use crate::nets::Nets;
use crate::part::part;
use candidates::LAID;
use rows::Sheet;
use stepping::contexts::{least, numbers};
use stepping::lookup::{port_table, used_links};
use stepping::steps::apart;
use stepping::{CHAINS, PORTS};

// One context for all atoms of a component, with 1 for each that has one.
fn give(
    contexts: &mut [u16; Sheet::ATOMS],
    done: &mut [u8; Sheet::ATOMS],
    order: &[u8; Sheet::ATOMS],
    count: usize,
    number: u16,
)
    requires { (length contexts.old ≡ sheet_atom_limit) × (length done.old ≡ sheet_atom_limit) × (count ≤ sheet_atom_limit) × ((h : ℕ) → h < count → get_or order.now h 0 < sheet_atom_limit) }
    ensures { (members : List ℕ) → Gave (given contexts.old done.old) (growth order.now count members) number count (given contexts.new done.new) }
{
    for h in 0..count {
        let j = order[h] as usize;
        contexts[j] = number;
        done[j] = 1;
    }
}

// The component of an atom gets its least context, or its links are a fault: 1 for each.
fn one_more(
    contexts: &mut [u16; Sheet::ATOMS],
    done: &mut [u8; Sheet::ATOMS],
    laid: &[u16; LAID],
    atoms: usize,
    links: usize,
    numbers: &[u16; Sheet::CONTEXT_ROOM],
    rows: usize,
    chains: &[u16; CHAINS],
    used: &[u8; Sheet::LINKS],
    ports: &[u8; PORTS],
    root: usize,
) -> Result<(), [u8; Sheet::LINKS]>
    requires { Rowed laid.now atoms × (links ≤ sheet_link_limit) × (rows ≤ figure_contexts) × (root < atoms) × (length contexts.old ≡ sheet_atom_limit) × (length done.old ≡ sheet_atom_limit) × Falls (node_of atoms 0) chains.now }
    ensures { OneMore laid.now atoms links numbers.now rows chains.now used.now ports.now root (given contexts.old done.old) (given contexts.new done.new) result }
{
    let mut order = [0u8; Sheet::ATOMS];
    let mut way = [0u16; Sheet::ATOMS];
    let mut seen = [0u8; Sheet::LINKS];
    let mut cuts = [0u16; Sheet::CONTEXT_ROOM];
    let count = grown(
        &mut order, &mut way, &mut seen, &mut cuts, laid, chains, used, ports, atoms, rows, root,
    );
    let c = least(numbers, rows, &cuts);
    if c == rows {
        let cut = part(
            laid, atoms, links, &way, &cuts, seen, used, ports, root, rows,
        );
        return Err(cut);
    }
    give(contexts, done, &order, count, numbers[c]);
    Ok(())
}

// Component by component: the least of the contexts with these numbers, of which there are `rows`, or the
// links of one that has none.
fn served(
    laid: &[u16; LAID],
    atoms: usize,
    links: usize,
    numbers: &[u16; Sheet::CONTEXT_ROOM],
    rows: usize,
    chains: &[u16; CHAINS],
    used: &[u8; Sheet::LINKS],
    ports: &[u8; PORTS],
    taken: [u8; Sheet::ATOMS],
) -> Result<[u16; Sheet::ATOMS], [u8; Sheet::LINKS]>
    requires { Rowed laid.now atoms × (links ≤ sheet_link_limit) × (rows ≤ figure_contexts) × Falls (node_of atoms 0) chains.now }
    ensures { (choices : List PortSet) → ((c : ℕ) → c < rows → get_or numbers.now c 0 ≡ number_of choices c) → Gives laid.now atoms links choices rows chains.now used.now ports.now taken result }
{
    let mut contexts = [0u16; Sheet::ATOMS];
    let mut done = [0u8; Sheet::ATOMS];
    for j in 0..atoms {
        if taken[j] != 1 {
            if done[j] != 1 {
                one_more(
                    &mut contexts,
                    &mut done,
                    laid,
                    atoms,
                    links,
                    numbers,
                    rows,
                    chains,
                    used,
                    ports,
                    j,
                )?;
            }
        }
    }
    Ok(contexts)
}

// The least context of each sheet atom, 0 where a figure atom goes; or a fault: 1 for each of its sheet links. `laid`
// are the sheet's atoms.
pub fn find(
    nets: Nets,
    laid: &[u16; LAID],
    chains: &[u16; CHAINS],
    taken: &[u8; Sheet::ATOMS],
    to: &[u16; Sheet::LINKS],
) -> Result<[u16; Sheet::ATOMS], [u8; Sheet::LINKS]>
    requires { (sheet : NormalForm) × (figure : NormalForm) × Over sheet figure nets laid.now chains.now to.now }
    ensures { (sheet figure : NormalForm) → Over sheet figure nets laid.now chains.now to.now → FindsAll sheet figure taken.now to.now result }
{
    let none = (nets.links + 1) as u16;
    let contexts = nets.contexts;
    if let Some(y) = apart(contexts, nets.rows, nets.count, to, none) {
        let mut links = [0u8; Sheet::LINKS];
        links[y] = 1;
        return Err(links);
    }
    let used = used_links(nets.count, to, none);
    let mut ports = [0u8; PORTS];
    let numbers = numbers(contexts, nets.rows);
    port_table(&mut ports, &numbers, contexts, nets.rows, to, none);
    let atoms = nets.atoms;
    let links = nets.links;
    let rows = nets.rows;
    served(
        laid, atoms, links, &numbers, rows, chains, &used, &ports, *taken,
    )
}
