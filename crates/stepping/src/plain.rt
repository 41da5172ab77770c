// Plain steps: an atom that leads from one sheet link to one other. Atoms and links are counted from 0, but for
// links in rows of atoms, which are counted from 1.
ghost use Rattle.std.specs.Prelude.{◌≡◌, true, ◌≢◌, ℕ, suc, ◌-◌, ◌<◌, ◌≤◌, IfSome, get_or};
ghost use Rattle.rows.specs.Format.{most_links};
ghost use Rattle.rows.specs.Limits.{sheet_atom_limit, sheet_link_limit, figure_contexts};
ghost use Rattle.rows.specs.declared.Sheet.{Sheet as NormalForm};
ghost use Rattle.placing.specs.Placing.{Placing};
ghost use Rattle.network.specs.NetIn.{net_in};
ghost use Rattle.candidates.specs.Laid.{Rowed, LaidOut};
ghost use Rattle.candidates.specs.PortSets.{Ports, ContextsIn};
ghost use Rattle.completing.specs.Known.{Touches};
ghost use Rattle.completing.specs.Neighbours.{PlainStep, OneEach};
ghost use Rattle.stepping.specs.Flags.{Within};
ghost use Rattle.stepping.specs.Chains.{node_of, node_count, Falls, ChainsIn};
ghost use Rattle.stepping.specs.Plain.{UsedBy, FreeBy, OnlyBy, OtherBy, OwnLink, AllOwn};

use crate::CHAINS;
use crate::contexts::numbers;
use candidates::LAID;
use candidates::laid::laid_atom;
use candidates::ports::PortSet;
use rows::Sheet;

// All atoms on link y are t or u.
fn only_on(chains: &[u16; CHAINS], y: usize, t: usize, u: usize) -> bool
    requires { (y < sheet_link_limit) × Falls node_count chains.now }
    ensures { result ≡ true → OnlyBy chains.now y t u }
{
    let mut v = chains[y] as usize;
    while v != 0 {
        let j = (v - Sheet::LINKS) / Sheet::MOST_LINKS;
        if j != t {
            if j != u {
                return false;
            }
        }
        v = chains[v] as usize;
    }
    true
}

// An atom on link y that is not t; t where there is none.
pub fn other_on(chains: &[u16; CHAINS], y: usize, t: usize) -> usize
    requires { (y < sheet_link_limit) × (t < sheet_atom_limit) × Falls node_count chains.now }
    ensures { (result < sheet_atom_limit) × OtherBy chains.now y t result }
{
    let mut v = chains[y] as usize;
    while v != 0 {
        let j = (v - Sheet::LINKS) / Sheet::MOST_LINKS;
        if j != t {
            return j;
        }
        v = chains[v] as usize;
    }
    t
}

// Link w is y or z, or no figure link goes there and no atom but t is on it.
fn own_link(
    chains: &[u16; CHAINS],
    used: &[u8; Sheet::LINKS],
    w: usize,
    t: usize,
    y: usize,
    z: usize,
) -> bool
    requires { (w < sheet_link_limit) × Falls node_count chains.now }
    ensures { result ≡ true → w ≢ y → w ≢ z → OwnLink chains.now used.now w t }
{
    if w == y {
        return true;
    }
    if w == z {
        return true;
    }
    if used[w] == 1 {
        return false;
    }
    only_on(chains, w, t, t)
}

// The first of these links of atom t, but y, that is not its own.
fn leads_to(
    links: [u16; Sheet::MOST_LINKS],
    count: usize,
    chains: &[u16; CHAINS],
    used: &[u8; Sheet::LINKS],
    t: usize,
    y: usize,
) -> Option<usize>
    requires { (count ≤ most_links) × Within sheet_link_limit count links × Falls node_count chains.now }
    ensures { IfSome result (λ w. (k : ℕ) × (k < count) × (get_or links k 0 ≡ suc w)) }
{
    for k in 0..count {
        let w = (links[k] - 1) as usize;
        if !own_link(chains, used, w, t, y, y) {
            return Some(w);
        }
    }
    None
}

// All these links of atom t, but y and z, are its own.
fn all_own(
    links: [u16; Sheet::MOST_LINKS],
    count: usize,
    chains: &[u16; CHAINS],
    used: &[u8; Sheet::LINKS],
    t: usize,
    y: usize,
    z: usize,
) -> bool
    requires { (count ≤ most_links) × Within sheet_link_limit count links × Falls node_count chains.now }
    ensures { result ≡ true → AllOwn chains.now used.now links count t y z }
{
    for k in 0..count {
        let w = (links[k] - 1) as usize;
        if !own_link(chains, used, w, t, y, z) {
            return false;
        }
    }
    true
}

// Atom t leads from link y to one other link and nowhere else: that link.
pub fn step_over(
    laid: &[u16; LAID],
    chains: &[u16; CHAINS],
    atoms: usize,
    taken: &[u8; Sheet::ATOMS],
    used: &[u8; Sheet::LINKS],
    t: usize,
    y: usize,
) -> Option<usize>
    requires { Rowed laid.now atoms × Falls (node_of atoms 0) chains.now × (t < atoms) × (y < sheet_link_limit) }
    ensures { IfSome result (λ z. (z < sheet_link_limit) × ((sheet figure : NormalForm) (q : Placing) → LaidOut sheet laid.now atoms → ChainsIn sheet chains.now → UsedBy sheet figure q used.now → FreeBy sheet figure q taken.now → Touches (net_in sheet) (suc t) (suc y) → (u : ℕ) × PlainStep (net_in sheet) (net_in figure) q (suc t) u (suc y) (suc z))) }
{
    if taken[t] == 1 {
        return None;
    }
    let a = laid_atom(laid, t);
    let links = a.links;
    let z = leads_to(links, a.count as usize, chains, used, t, y)?;
    if z == y {
        return None;
    }
    if used[z] == 1 {
        return None;
    }
    let u = other_on(chains, z, t);
    if taken[u] == 1 {
        return None;
    }
    if !only_on(chains, z, t, u) {
        return None;
    }
    if !all_own(links, a.count as usize, chains, used, t, y, z) {
        return None;
    }
    Some(z)
}

// No context before c has its number.
fn new_number(numbers: &[u16; Sheet::CONTEXT_ROOM], c: usize) -> bool
    requires { c < figure_contexts }
    ensures { result ≡ true → (d : ℕ) → d < c → get_or numbers.now d 0 ≢ get_or numbers.now c 0 }
{
    for d in 0..c {
        if numbers[d] == numbers[c] {
            return false;
        }
    }
    true
}

// No two contexts have one number.
pub fn one_each(contexts: [PortSet; Sheet::CONTEXT_ROOM], rows: usize) -> bool
    requires { (links : ℕ) × Ports contexts rows links }
    ensures { result ≡ true → (figure : NormalForm) (links : ℕ) → ContextsIn figure contexts rows links → OneEach (net_in figure) }
{
    let list = numbers(contexts, rows);
    for c in 0..rows {
        if !new_number(&list, c) {
            return false;
        }
    }
    true
}
