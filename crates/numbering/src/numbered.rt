// A text's atoms, contexts and marks with the numbers of their link classes.
ghost use Rattle.std.specs.Prelude.{◌≡◌, List, [], ◌++◌, map, ℕ, ◌+◌, ◌*◌, ◌≤◌, length, take, drop, get_or};
ghost use Rattle.rows.specs.Format.{most_links};
ghost use Rattle.rows.specs.Limits.{sheet_atom_limit, figure_contexts, sheet_marks};
ghost use Rattle.numbering.specs.Numbering.{Labels, MarkLabels, numbering, label_in, mark_label_in, with_classes, atom_labels, context_labels, atom_numbered, context_numbered, marks_by, most_classes};

use crate::classes::{ROOM, number_class, number_links};
use crate::labels::mark_label;
use linking::place::HINTS;
use rows::{Atom, Context, Sheet};

pub fn numbered_atoms<'a>(
    numbers: &mut [u16; ROOM],
    count: &mut usize,
    links: &'a [u16],
    classes: &'a [u16],
    n: usize,
    mut atoms: [Atom; Sheet::ATOM_ROOM],
    atom_count: usize,
    hints: &'a [u8; HINTS],
) -> [Atom; Sheet::ATOM_ROOM]
    requires labels { Labels hints.now links.now classes.now n × (atom_count ≤ sheet_atom_limit) × (count.old + most_links * atom_count ≤ most_classes) }
    requires by_index { (i : ℕ) → (get_or atoms i (record { name = 0; count = 0; links = [] })).count ≤ most_links }
    ensures count_after { numbering numbers.new count.new ≡ with_classes (numbering numbers.old count.old) (atom_labels (label_in links.now classes.now n) (take atom_count atoms)) }
    ensures count_bound { count.new ≤ count.old + most_links * atom_count }
    ensures by_index_2 { (later : List ℕ) → result ≡ map (atom_numbered (with_classes (numbering numbers.new count.new) later).numbers (label_in links.now classes.now n)) (take atom_count atoms) ++ drop atom_count atoms }
{
    let mut i = 0;
    while i < atom_count {
        let atom = atoms[i];
        let ports = atom.links;
        let link_numbers = number_links(
            numbers,
            count,
            links,
            classes,
            n,
            ports,
            atom.count as usize,
            hints,
        );
        atoms[i] = Atom {
            name: atom.name,
            count: atom.count,
            links: link_numbers,
        };
        i += 1;
    }
    atoms
}

pub fn numbered_contexts<'a>(
    numbers: &mut [u16; ROOM],
    count: &mut usize,
    links: &'a [u16],
    classes: &'a [u16],
    n: usize,
    mut contexts: [Context; Sheet::CONTEXT_ROOM],
    context_count: usize,
    hints: &'a [u8; HINTS],
) -> [Context; Sheet::CONTEXT_ROOM]
    requires labels { Labels hints.now links.now classes.now n × (context_count ≤ figure_contexts) × (count.old + most_links * context_count ≤ most_classes) }
    requires by_index { (i : ℕ) → (get_or contexts i (record { number = 0; count = 0; links = []; row = 0 })).count ≤ most_links }
    ensures count_after { numbering numbers.new count.new ≡ with_classes (numbering numbers.old count.old) (context_labels (label_in links.now classes.now n) (take context_count contexts)) }
    ensures count_bound { count.new ≤ count.old + most_links * context_count }
    ensures by_index_2 { (later : List ℕ) → result ≡ map (context_numbered (with_classes (numbering numbers.new count.new) later).numbers (label_in links.now classes.now n)) (take context_count contexts) ++ drop context_count contexts }
{
    let mut i = 0;
    while i < context_count {
        let context = contexts[i];
        let ports = context.links;
        let port_numbers = number_links(
            numbers,
            count,
            links,
            classes,
            n,
            ports,
            context.count as usize,
            hints,
        );
        contexts[i] = Context {
            number: context.number,
            count: context.count,
            links: port_numbers,
            row: context.row,
        };
        i += 1;
    }
    contexts
}

// The numbers of the classes of these marks, as many as there are.
pub fn numbered_marks<'a>(
    numbers: &mut [u16; ROOM],
    count: &mut usize,
    marks: &'a [u16],
    marked: &'a [u16],
    classes: &'a [u16],
    n: usize,
    ascending: &'a [u16],
) -> [u16; Sheet::MARK_ROOM]
    requires { MarkLabels marks.now marked.now classes.now n × (n ≤ sheet_marks) × (n ≤ length ascending.now) × (count.old + n ≤ most_classes) }
    ensures count_after { numbering numbers.new count.new ≡ with_classes (numbering numbers.old count.old) (map (mark_label_in marks.now marked.now classes.now n) (take n ascending.now)) }
    ensures value { result ≡ marks_by numbers.new (mark_label_in marks.now marked.now classes.now n) (take n ascending.now) }
{
    let mut numbered = [0u16; Sheet::MARK_ROOM];
    let mut i = 0;
    while i < n {
        let label = mark_label(marks, marked, classes, n, ascending[i]);
        numbered[i] = number_class(numbers, count, label);
        i += 1;
    }
    numbered
}
