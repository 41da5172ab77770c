// The normal form of a sheet or a figure.
ghost use Rattle.std.specs.Prelude.{◌≡◌, ◌≤◌, take};
ghost use Rattle.linking.specs.Steps.{Distinct, Hinted};
ghost use Rattle.numbering.specs.Numbering.{Numberable};
ghost use Rattle.reading.specs.Made.{Widths, arrays, normal_made};

use linking::place::HINTS;
use numbering::classes::ROOM;
use numbering::marks::ascending_marks;
use numbering::numbered::{numbered_atoms, numbered_contexts, numbered_marks};
use rows::{Atom, Context, Sheet};

// Each link, and then each mark, gets the number of its class; a class gets the next number where it first appears.
// Of a atoms the first `some` are numbered, and of c contexts the first `shown`.
pub(crate) fn normal_from<'a>(
    atoms: [Atom; Sheet::ATOM_ROOM],
    a: usize,
    some: usize,
    contexts: [Context; Sheet::CONTEXT_ROOM],
    c: usize,
    shown: usize,
    links: &'a [u16],
    classes: &'a [u16],
    n: usize,
    marks: &'a [u16],
    marked: &'a [u16],
    m: usize,
    hints: &'a [u8; HINTS],
) -> Sheet
    requires { Numberable (arrays atoms a contexts c links.now classes.now n marks.now marked.now m) × Widths (arrays atoms a contexts c links.now classes.now n marks.now marked.now m) × (some ≤ a) × (shown ≤ c) × Hinted hints.now links.now n × Distinct (take n links.now) }
    ensures { result ≡ normal_made some shown (arrays atoms a contexts c links.now classes.now n marks.now marked.now m) }
{
    let mut numbers = [0u16; ROOM];
    let mut used = 0;
    let atoms = numbered_atoms(
        &mut numbers,
        &mut used,
        links,
        classes,
        n,
        atoms,
        some,
        hints,
    );
    let contexts = numbered_contexts(
        &mut numbers,
        &mut used,
        links,
        classes,
        n,
        contexts,
        shown,
        hints,
    );
    let sorted = ascending_marks(marks, m);
    let numbered = numbered_marks(&mut numbers, &mut used, marks, marked, classes, m, &sorted);
    Sheet {
        atoms,
        atom_count: a,
        contexts,
        context_count: c,
        marks: sorted,
        marked: numbered,
        mark_count: m,
        class_count: used,
    }
}
