// Link classes numbered by first appearance: a table of the labels that have a number, in the order of
// their numbers, and the count of them.
ghost use Rattle.std.specs.Prelude.{◌≡◌, List, [], ◌∷◌, ◌++◌, map, ℕ, ◌+◌, ◌≤◌, ◌<◌, length, take, drop, get_or};
ghost use Rattle.rows.specs.Format.{most_links};
ghost use Rattle.rows.specs.Limits.{sheet_marks, atom_room, mark_room};
ghost use Rattle.rows.specs.Packed.{padded};
ghost use Rattle.normalising.specs.NormalRows.{past_atoms};
ghost use Rattle.filling.specs.Parts.{places};
ghost use Rattle.filling.specs.Whole.{labels_at, labelled_links, labelled_atom, Linked};
ghost use Rattle.filling.specs.Classes.{LabelTable, Sees, with_labels, links_in, number_in, numbered_links, numbered_at};

use crate::glue::PLACES;
use linking::take::index_of;
use rows::{Atom, Sheet};

// One label more than a sheet has links says that there are too many.
pub(crate) const KNOWN: usize = Sheet::LINKS + 1;

// The number of a label, which it keeps whatever is numbered later; one that is new gets the next, where
// there is room.
fn number_label(known: &mut [u16], n: &mut usize, label: u16) -> u16
    requires { LabelTable known.old n.old }
    ensures sees { Sees known.old n.old known.new n.new (label ∷ []) }
    ensures by_index { (later : List ℕ) → result ≡ number_in (with_labels (take n.new known.new) later) label }
{
    let count = *n;
    let i = index_of(known, count, label);
    if i == count {
        if count < KNOWN {
            known[count] = label;
            *n = count + 1;
        }
    }
    i as u16 + 1
}

// The numbers of the labels of an atom's first `count` places.
fn numbered_links(
    labels: &[u16; PLACES],
    known: &mut [u16],
    n: &mut usize,
    links: [u16; Sheet::MOST_LINKS],
    count: usize,
) -> [u16; Sheet::MOST_LINKS]
    requires { LabelTable known.old n.old × (count ≤ most_links) × ((k : ℕ) → get_or links k 0 < places) }
    ensures sees { Sees known.old n.old known.new n.new (take count (labelled_links labels.now count links)) }
    ensures by_index { (later : List ℕ) → result ≡ numbered_links (with_labels (take n.new known.new) later) count (labelled_links labels.now count links) }
{
    let mut numbered = [0u16; Sheet::MOST_LINKS];
    let mut k = 0;
    while k < count {
        let label = labels[links[k] as usize];
        numbered[k] = number_label(known, n, label);
        k += 1;
    }
    numbered
}

// Each place of the first `count` atoms made the number of its label.
pub(crate) fn numbered_atoms(
    labels: &[u16; PLACES],
    known: &mut [u16],
    n: &mut usize,
    mut atoms: [Atom; Sheet::ATOM_ROOM],
    count: usize,
) -> [Atom; Sheet::ATOM_ROOM]
    requires { LabelTable known.old n.old × (count ≤ atom_room) × ((i : ℕ) → Linked (get_or (take count atoms) i past_atoms)) }
    ensures sees { Sees known.old n.old known.new n.new (links_in (map (labelled_atom labels.now) (take count atoms))) }
    ensures by_index { (later : List ℕ) → result ≡ map (numbered_at (with_labels (take n.new known.new) later) labels.now) (take count atoms) ++ drop count atoms }
    ensures atoms_len { length (take count atoms) ≡ count }
{
    let mut i = 0;
    while i < count {
        let atom = atoms[i];
        let before = atom.links;
        let links = numbered_links(labels, known, n, before, atom.count as usize);
        atoms[i] = Atom {
            name: atom.name,
            count: atom.count,
            links,
        };
        i += 1;
    }
    atoms
}

// The numbers of the labels of the first `count` places with marks.
pub(crate) fn numbered_marks(
    labels: &[u16; PLACES],
    known: &mut [u16],
    n: &mut usize,
    marked: [u16; Sheet::MARK_ROOM],
    count: usize,
) -> [u16; Sheet::MARK_ROOM]
    requires { LabelTable known.old n.old × (count ≤ sheet_marks) × ((k : ℕ) → get_or marked k 0 < places) }
    ensures sees { Sees known.old n.old known.new n.new (labels_at labels.now count marked) }
    ensures value { result ≡ padded mark_room 0 (map (number_in (take n.new known.new)) (labels_at labels.now count marked)) }
{
    let mut numbered = [0u16; Sheet::MARK_ROOM];
    let mut k = 0;
    while k < count {
        let label = labels[marked[k] as usize];
        numbered[k] = number_label(known, n, label);
        k += 1;
    }
    numbered
}
