// The figure links that the placed atoms decide.
ghost use Rattle.std.specs.Prelude.{ℕ, ◌<◌, ◌≡◌, length, get_or};
ghost use Rattle.rows.specs.Limits.{sheet_link_limit};
ghost use Rattle.rows.specs.declared.Sheet.{Sheet as NormalForm};
ghost use Rattle.placing.specs.Net.{Range};
ghost use Rattle.network.specs.Ready.{AtomsIn};
ghost use Rattle.candidates.specs.Laid.{Rowed, LaidOut};
ghost use Rattle.deciding.specs.Links.{Entered, Told, Places, PlacesPut};
ghost use Rattle.deciding.specs.Agrees.{AtomsPut};

use candidates::LAID;
use candidates::laid::laid_atom;
use rows::Sheet;

// Link x, from 0, at y; false where it is elsewhere.
pub(crate) fn enter(to: &mut [u16; Sheet::LINKS], x: usize, y: u16) -> bool
    requires { x < sheet_link_limit }
    ensures { Entered to.old x y to.new result }
{
    let at = to[x];
    if at != 0 {
        if at != y {
            return false;
        }
    }
    to[x] = y;
    true
}

// The first `count` links of a, place by place, at those of b; false where two places disagree.
fn put_places(
    to: &mut [u16; Sheet::LINKS],
    a: [u16; Sheet::MOST_LINKS],
    b: [u16; Sheet::MOST_LINKS],
    count: usize,
) -> bool
    requires { Places count a × Places count b × (length to.old ≡ sheet_link_limit) }
    ensures { PlacesPut to.old a b count to.new result }
{
    for k in 0..count {
        if !enter(&mut *to, (a[k] - 1) as usize, b[k]) {
            return false;
        }
    }
    true
}

// The links of the figure atoms, where names and link counts agree too. `laid` are the sheet's atoms, `parts`
// the m atoms of the figure.
pub(crate) fn put_atoms<'a>(
    laid: &'a [u16; LAID],
    parts: &'a [u16; LAID],
    m: usize,
    atoms_to: &'a [u16; Sheet::ATOMS],
    to: &mut [u16; Sheet::LINKS],
) -> bool
    requires { ((n : ℕ) × Rowed laid.now n × ((i : ℕ) → i < m → Range n (get_or atoms_to.now i 0))) × Rowed parts.now m × (length to.old ≡ sheet_link_limit) }
    ensures { (sheet figure : NormalForm) → LaidOut sheet laid.now sheet.atom_count → LaidOut figure parts.now m → AtomsIn sheet figure.atom_count atoms_to.now → Told sheet figure atoms_to.now to.old → AtomsPut sheet figure atoms_to.now to.new result }
{
    for i in 0..m {
        let t = (atoms_to[i] - 1) as usize;
        let a = laid_atom(parts, i);
        let b = laid_atom(laid, t);
        if a.name != b.name {
            return false;
        }
        if a.count != b.count {
            return false;
        }
        let x = a.links;
        let y = b.links;
        if !put_places(&mut *to, x, y, a.count as usize) {
            return false;
        }
    }
    true
}
