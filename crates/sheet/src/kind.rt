// The kinds of text, with the letters and the limits of each.
ghost use Rattle.std.specs.Prelude.{◌≡◌, eqb};
ghost use Rattle.rows.specs.Pick.{and, not};
ghost use Rattle.sheet.specs.Reading.{strange_by, clash_of};
ghost use Rattle.sheet.specs.Kinds.{limits_of, allowed, is_list};

use rows::Sheet;
use rows::row::Row;

// A sheet; a figure as a pattern, as a replacement, or in any other place; a list of fillings.
#[derive(Clone, Copy)]
pub enum Kind {
    Plain,
    Pattern,
    Figure,
    Replacement,
    Fillings,
}

// What a text may have: for each letter, S B F E H, whether its rows stand there; and the most rows,
// symbols, B or H rows, joint numbers and marks.
#[derive(Clone, Copy)]
pub struct Limits {
    pub letters: [bool; Row::NO_LETTER],
    pub rows: usize,
    pub atoms: usize,
    pub contexts: usize,
    pub links: usize,
    pub marks: usize,
}

// S, F and E rows.
const SHEET: Limits = Limits {
    letters: [true, false, true, true, false],
    rows: Sheet::ROWS,
    atoms: Sheet::ATOMS,
    contexts: Sheet::FIGURE_CONTEXTS,
    links: Sheet::LINKS,
    marks: Sheet::MARKS,
};

// B rows too.
const FIGURE: Limits = Limits {
    letters: [true, true, true, true, false],
    rows: Sheet::ROWS,
    atoms: Sheet::FIGURE_ATOMS,
    contexts: Sheet::FIGURE_CONTEXTS,
    links: Sheet::FIGURE_LINKS,
    marks: Sheet::MARKS,
};

// S, F and E rows after H rows; links and marks are those of one filling.
const LIST: Limits = Limits {
    letters: [true, false, true, true, true],
    rows: Sheet::ROWS,
    atoms: Sheet::ATOMS,
    contexts: Sheet::FIGURE_CONTEXTS,
    links: Sheet::FILLING_LINKS,
    marks: Sheet::MARKS,
};

pub(crate) fn limits_of(kind: Kind) -> Limits
    ensures { result ≡ limits_of kind }
{
    match kind {
        Kind::Plain => SHEET,
        Kind::Pattern => FIGURE,
        Kind::Figure => FIGURE,
        Kind::Replacement => FIGURE,
        Kind::Fillings => LIST,
    }
}

// Whether rows of this letter stand in such a text.
pub(crate) fn allows(kind: Kind, letter: usize) -> bool
    ensures { result ≡ allowed kind letter }
{
    if Row::NO_LETTER <= letter {
        return false;
    }
    let limits = limits_of(kind);
    let letters = limits.letters;
    letters[letter]
}

pub fn is_list(kind: Kind) -> bool
    ensures { result ≡ is_list kind }
{
    allows(kind, Row::HEAD)
}

// Whether a row of this letter may not stand after so many heads.
pub(crate) fn is_strange(kind: Kind, letter: usize, heads: usize) -> bool
    ensures { result ≡ strange_by kind letter heads }
{
    if !allows(kind, letter) {
        return true;
    }
    if letter == Row::HEAD {
        return false;
    }
    if !is_list(kind) {
        return false;
    }
    heads == 0
}

// Whether an earlier B row has other ports, where 0 is none.
pub(crate) fn ports_differ(before: u16, ports: u16) -> bool
    ensures { result ≡ and (not (eqb before 0)) (not (eqb before ports)) }
{
    if before == 0 {
        return false;
    }
    before != ports
}

// Whether a B row's port count and 1 clashes with that of an earlier B row of its number, or with
// that of the pattern, where 0 is none.
pub(crate) fn ports_clash(kind: Kind, before: u16, given: u16, ports: u16) -> bool
    ensures { result ≡ clash_of kind before given ports }
{
    match kind {
        Kind::Plain => false,
        Kind::Fillings => false,
        Kind::Pattern => before != 0,
        Kind::Figure => ports_differ(before, ports),
        Kind::Replacement => {
            if ports_differ(before, ports) {
                return true;
            }
            given != ports
        }
    }
}
