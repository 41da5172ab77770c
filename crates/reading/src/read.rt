// The readers of texts: one walk over rows, for every kind of text.
ghost use Rattle.std.specs.Prelude.{◌≡◌, []};
ghost use Rattle.rows.specs.Pick.{pick};
ghost use Rattle.rows.specs.Held.{nothing};
ghost use Rattle.rows.specs.Packed.{port_table};
ghost use Rattle.rows.specs.TextArrays.{packed};
ghost use Rattle.sheet.specs.Kinds.{is_list};
ghost use Rattle.sheet.specs.Filling.{is_passed};
ghost use Rattle.sheet.specs.Reading.{outcome_of, no_ports};
ghost use Rattle.reading.specs.Made.{is_many, normal_made, reading_of};
ghost use Rattle.reading.specs.Readings.{sheet_read};

use crate::counts::{before, counted};
use crate::normal::normal_from;
use linking::place::HINTS;
use linking::take::{add_row_links, add_row_mark};
use rows::entry::{atom_of, context_of, is_context, row_ports};
use rows::row::Row;
use rows::{Atom, Context, Sheet};
use sheet::answer::Answer;
use sheet::judge::{late_answer, next_row, row_clash};
use sheet::kind::{Kind, is_list};

// A reader's answer; the normal form of what the text holds; and for each context number its port count and 1, 0
// where no row has that number. A text that is turned down holds nothing. Of a list, the contexts are the heads as
// they stand, and the links and marks are those of the last filling.
#[derive(Clone, Copy)]
pub struct Reading {
    pub answer: Answer,
    pub normal: Sheet,
    pub ports: [u16; Sheet::NUMBERS],
}

fn is_passed(answer: Answer) -> bool
    ensures { result ≡ is_passed answer }
{
    match answer {
        Answer::Passed => true,
        Answer::Refused(_, _) => false,
    }
}

fn turned_down(answer: Answer) -> Reading
    ensures { result ≡ record { answer = answer; normal = normal_made 0 0 (packed nothing); ports = port_table [] } }
{
    Reading {
        answer,
        normal: Sheet::empty(),
        ports: [0; Sheet::NUMBERS],
    }
}

// How many of a atoms are numbered: none of a list with several fillings, since its links are those of the last.
fn shown_atoms(kind: Kind, c: usize, a: usize) -> usize
    ensures { result ≡ pick (is_many kind c) 0 a }
{
    if !is_list(kind) {
        return a;
    }
    if 1 < c {
        return 0;
    }
    a
}

// How many of c contexts have links: a head has none.
fn shown_contexts(kind: Kind, c: usize) -> usize
    ensures { result ≡ pick (is_list kind) 0 c }
{
    if is_list(kind) {
        return 0;
    }
    c
}

// The one walk over rows. `pattern` has the port counts of the pattern's contexts, for a replacement;
// `labels` has the class of each link, `on` the place of each mark's link, and `hints` where to look for a link first.
pub fn read_text(kind: Kind, pattern: [u16; Sheet::NUMBERS], text: &[u8]) -> Reading
    ensures { result ≡ reading_of kind (outcome_of kind pattern text.now) }
{
    let mut atoms = [Atom::none(); Sheet::ATOM_ROOM];
    let mut contexts = [Context::none(); Sheet::CONTEXT_ROOM];
    let mut ports = [0; Sheet::NUMBERS];
    let mut links = [0; Sheet::LINK_ROOM];
    let mut labels = [0; Sheet::LINK_ROOM];
    let mut marks = [0; Sheet::MARK_ROOM];
    let mut on = [0; Sheet::MARK_ROOM];
    let mut hints = [0u8; HINTS];
    let mut a = 0;
    let mut c = 0;
    let mut n = 0;
    let mut m = 0;
    let mut k = 0;
    while k * Sheet::ROW < text.len() {
        let next = next_row(kind, c, text, k);
        let row = next.row;
        let answer = next.answer;
        if !is_passed(answer) {
            return turned_down(answer);
        }
        let clash = row_clash(kind, pattern, ports, contexts[before(c)].number, row);
        atoms[a] = atom_of(row);
        a += counted(row.letter == Row::ATOM);
        contexts[c] = context_of(row, (k + 1) as u16);
        c += counted(is_context(row.letter));
        let table = row_ports(ports, row);
        ports = table;
        n = add_row_links(&mut links, &mut labels, n, row, &mut hints);
        m = add_row_mark(&links, &mut labels, &mut marks, &mut on, n, m, row);
        k += 1;
        let answer = late_answer(kind, a, c, n, m, clash, k);
        if !is_passed(answer) {
            return turned_down(answer);
        }
    }
    let normal = normal_from(
        atoms,
        a,
        shown_atoms(kind, c, a),
        contexts,
        c,
        shown_contexts(kind, c),
        &links,
        &labels,
        n,
        &marks,
        &on,
        m,
        &hints,
    );
    Reading {
        answer: Answer::Passed,
        normal,
        ports,
    }
}

pub fn read_sheet(text: &[u8]) -> Reading
    ensures { result ≡ sheet_read (outcome_of Kind.Plain no_ports text.now) }
{
    read_text(Kind::Plain, [0; Sheet::NUMBERS], text)
}

pub fn read_pattern(text: &[u8]) -> Reading
    ensures { result ≡ sheet_read (outcome_of Kind.Pattern no_ports text.now) }
{
    read_text(Kind::Pattern, [0; Sheet::NUMBERS], text)
}

pub fn read_figure(text: &[u8]) -> Reading
    ensures { result ≡ sheet_read (outcome_of Kind.Figure no_ports text.now) }
{
    read_text(Kind::Figure, [0; Sheet::NUMBERS], text)
}

// The pattern passed, and these are the ports of its contexts.
pub fn read_replacement(pattern: [u16; Sheet::NUMBERS], text: &[u8]) -> Reading
    ensures { result ≡ sheet_read (outcome_of Kind.Replacement pattern text.now) }
{
    read_text(Kind::Replacement, pattern, text)
}

pub fn read_list(text: &[u8]) -> Reading
    ensures { result ≡ reading_of Kind.Fillings (outcome_of Kind.Fillings no_ports text.now) }
{
    read_text(Kind::Fillings, [0; Sheet::NUMBERS], text)
}
