// The atoms of a filled figure, with the places of their link classes.
ghost use Rattle.std.specs.Prelude.{◌≡◌, map, ℕ, ◌+◌, ◌≤◌, ◌<◌, take, get_or};
ghost use Rattle.rows.specs.Limits.{sheet_atom_limit, figure_contexts, atom_room};
ghost use Rattle.sheet.specs.Filling.{HeadsRead};
ghost use Rattle.normalising.specs.NormalRows.{past_atoms};
ghost use Rattle.filling.specs.Parts.{part_room, Exacts};
ghost use Rattle.filling.specs.Glued.{place_of, Own};
ghost use Rattle.filling.specs.Whole.{placed_atom, ContextsRanged, Grown, Puts};

use crate::glue::{PART, PLACES, with_ports};
use crate::part::{note_exact, part_of};
use rows::{Atom, Context, Sheet};

// As many atoms as a sheet has room for: one more than its limit says that there are too many.
#[derive(Clone, Copy)]
pub struct Whole {
    pub atoms: [Atom; Sheet::ATOM_ROOM],
    pub count: usize,
}

// The places of the links of an atom of part p.
pub fn placed(p: usize, links: [u16; Sheet::MOST_LINKS]) -> [u16; Sheet::MOST_LINKS]
    requires { (p ≤ figure_contexts) × ((k : ℕ) → get_or links k 0 < part_room) }
    ensures { result ≡ map (place_of p) links }
{
    let mut more = links;
    let mut k = 0;
    while k < Sheet::MOST_LINKS {
        more[k] = (p * PART) as u16 + links[k];
        k += 1;
    }
    more
}

impl Whole {
    // The first `count` atoms of part p, as many as there is room for.
    fn with_part(mut self, p: usize, atoms: [Atom; Sheet::ATOM_ROOM], count: usize) -> Self
        requires { (self.count ≤ atom_room) × (p ≤ figure_contexts) × (count ≤ sheet_atom_limit) × ((i k : ℕ) → get_or (get_or atoms i past_atoms).links k 0 < part_room) }
        ensures { Grown self result (map (placed_atom p) (take count atoms)) }
    {
        let mut i = 0;
        while i < count {
            let atom = atoms[i];
            let before = atom.links;
            let links = placed(p, before);
            let n = self.count;
            if n < Sheet::ATOM_ROOM {
                self.atoms[n] = Atom {
                    name: atom.name,
                    count: atom.count,
                    links,
                };
                self.count = n + 1;
            }
            i += 1;
        }
        self
    }
}

// The figure's own atoms, whose link classes are their own places, then for each of its contexts in order the
// filling's; each filling is read once, and its ports make labels one.
pub(crate) fn whole_of(
    own: Whole,
    contexts: [Context; Sheet::CONTEXT_ROOM],
    count: usize,
    list: &[u8],
    heads: [Context; Sheet::CONTEXT_ROOM],
    head_count: usize,
    labels: &mut [u16; PLACES],
    exact: &mut [u16; Sheet::NUMBERS],
) -> Whole
    requires { ContextsRanged contexts count × (own.count ≤ atom_room) × HeadsRead list.now heads head_count × Own labels.old × Exacts list.now exact.old }
    ensures exacts { Exacts list.now exact.new }
    ensures puts { Puts list.now own (take count contexts) labels.old labels.new result }
{
    let mut whole = own;
    let mut i = 0;
    while i < count {
        let context = contexts[i];
        let links = context.links;
        let part = part_of(list, heads, head_count, context.number);
        with_ports(
            &mut *labels,
            i + 1,
            links,
            context.count as usize,
            &part.normal.marked,
        );
        note_exact(
            &mut *exact,
            &part.normal.marks,
            part.normal.mark_count,
            context.number,
            context.count,
        );
        let atoms = part.normal.atoms;
        whole = whole.with_part(i + 1, atoms, part.normal.atom_count);
        i += 1;
    }
    whole
}
