// Rows of 34 bytes: how one is read, and what a text holds of its rows.
#![tactic(auto)]

pub mod entry;
pub mod row;

ghost use Rattle.std.specs.Prelude.{◌≡◌};
ghost use Rattle.rows.specs.Packed.{no_atom, no_context, empty_sheet};

// A symbol row: an atom with its name and its links, of which `count` are used.
#[derive(Clone, Copy)]
pub struct Atom {
    pub name: u16,
    pub count: u16,
    pub links: [u16; Sheet::MOST_LINKS],
}

// A blank row: a graph context with its number and its ports; `row` is its row, from 1.
// In a list of fillings, a head: the context that is filled, and its port count.
#[derive(Clone, Copy)]
pub struct Context {
    pub number: u16,
    pub count: u16,
    pub links: [u16; Sheet::MOST_LINKS],
    pub row: u16,
}

impl Atom {
    // What stands in an array of atoms after the last.
    pub fn none() -> Self
        ensures { result ≡ no_atom }
    {
        Atom {
            name: 0,
            count: 0,
            links: [0; Sheet::MOST_LINKS],
        }
    }
}

impl Context {
    // What stands in an array of contexts after the last.
    pub fn none() -> Self
        ensures { result ≡ no_context }
    {
        Context {
            number: 0,
            count: 0,
            links: [0; Sheet::MOST_LINKS],
            row: 0,
        }
    }
}

// A sheet or a figure as it is read: its rows in normal form. The links of atoms and contexts are the numbers of link
// classes, from 1; the marks ascend, and each has the number of its link class. In a list of fillings, the contexts are
// its heads. Each array has room for one row more than its limit, since a row is taken in before it is judged.
#[derive(Clone, Copy)]
pub struct Sheet {
    pub atoms: [Atom; Sheet::ATOM_ROOM],
    pub atom_count: usize,
    pub contexts: [Context; Sheet::CONTEXT_ROOM],
    pub context_count: usize,
    pub marks: [u16; Sheet::MARK_ROOM],
    pub marked: [u16; Sheet::MARK_ROOM],
    pub mark_count: usize,
    pub class_count: usize,
}

impl Sheet {
    // The most links of an atom or a context. The row's width follows from it.
    pub const MOST_LINKS: usize = 6;

    pub const FIELDS: usize = 2 + Sheet::MOST_LINKS;

    // The columns of a field.
    pub const FIELD: usize = 4;

    pub const ROW: usize = 2 + Sheet::FIELD * Sheet::FIELDS;

    // The greatest name of a symbol, and the greatest mark.
    pub const MOST_NAME: u16 = 999;

    // The greatest joint number, which is all that a field holds.
    pub const MOST_NUMBER: u16 = 9999;

    // The greatest context number.
    pub const MOST_CONTEXT: u16 = 4;

    pub const ROWS: usize = 256;

    // One byte more than the longest text that passes: no later byte changes an answer.
    pub const TEXT: usize = Sheet::ROWS * Sheet::ROW + 1;

    pub const ATOMS: usize = 64;

    pub const LINKS: usize = 96;

    pub const MARKS: usize = 32;

    pub const FIGURE_ATOMS: usize = 16;

    pub const FIGURE_CONTEXTS: usize = 8;

    pub const FIGURE_LINKS: usize = 32;

    pub const FILLING_LINKS: usize = Sheet::LINKS + Sheet::MOST_LINKS;

    // Context numbers are counted from 1; 0 is none.
    pub const NUMBERS: usize = Sheet::MOST_CONTEXT as usize + 1;

    pub const ATOM_ROOM: usize = Sheet::ATOMS + 1;

    pub const CONTEXT_ROOM: usize = Sheet::FIGURE_CONTEXTS + 1;

    pub const LINK_ROOM: usize = Sheet::FILLING_LINKS + Sheet::MOST_LINKS;

    pub const MARK_ROOM: usize = Sheet::MARKS + 1;

    // The least length of an output slip.
    pub const SLIP: usize = 4096;

    pub fn empty() -> Self
        ensures { result ≡ empty_sheet }
    {
        let atom = Atom::none();
        let context = Context::none();
        let atoms = [atom; Sheet::ATOM_ROOM];
        let contexts = [context; Sheet::CONTEXT_ROOM];
        Sheet {
            atoms,
            atom_count: 0,
            contexts,
            context_count: 0,
            marks: [0; Sheet::MARK_ROOM],
            marked: [0; Sheet::MARK_ROOM],
            mark_count: 0,
            class_count: 0,
        }
    }
}
