// The tests of one row, in the order of the table.
ghost use Rattle.std.specs.Prelude.{◌≡◌, List, false, ◌+◌, ◌*◌, ◌≤◌, length, drop};
ghost use Rattle.rows.specs.Format.{row_width};
ghost use Rattle.rows.specs.Limits.{row_limit};
ghost use Rattle.rows.specs.Packed.{port_table};
ghost use Rattle.rows.specs.Entry.{Ranged};
ghost use Rattle.rows.specs.declared.Context.{Context};
ghost use Rattle.sheet.specs.Reading.{ragged, last_number, clashes, first_of, late_tests};
ghost use Rattle.sheet.specs.Steps.{answer_of, early_answer, whole_row, next_of};

use crate::answer::{Answer, Refusal};
use crate::kind::{Kind, is_strange, limits_of, ports_clash};
use rows::Sheet;
use rows::row::{Row, read_row};

// The next row, and whether a test that asks nothing of what is held turns it down.
#[derive(Clone, Copy)]
pub struct Next {
    pub answer: Answer,
    pub row: Row,
}

// Whether the row at `at` is incomplete, or its last byte is no newline.
fn is_ragged(text: &[u8], at: usize) -> bool
    requires { at ≤ length text.now }
    ensures { result ≡ ragged (drop at text.now) }
{
    if text.len() - at < Sheet::ROW {
        return true;
    }
    text[at + Sheet::ROW - 1] != b'\n'
}

// The row at `at`; where it is cut, one without a letter.
fn row_at(text: &[u8], at: usize, cut: bool) -> Row
    requires { cut ≡ false → at + row_width ≤ length text.now }
    ensures { result ≡ whole_row cut (drop at text.now) }
{
    if cut {
        return Row::none();
    }
    read_row(&text[at..at + Sheet::ROW])
}

// Refusals 4, 1, 2 and 3 at the row after k rows, of which so many are heads.
fn early_answer(kind: Kind, heads: usize, cut: bool, row: Row, k: usize) -> Answer
    requires { k ≤ row_limit }
    ensures { result ≡ early_answer kind heads k cut row }
{
    let limits = limits_of(kind);
    if limits.rows <= k {
        return Answer::Refused(Refusal::Long, k + 1);
    }
    if cut {
        return Answer::Refused(Refusal::Ragged, k + 1);
    }
    if is_strange(kind, row.letter, heads) {
        return Answer::Refused(Refusal::StrangeRow, k + 1);
    }
    if !row.good {
        return Answer::Refused(Refusal::BadColumn, k + 1);
    }
    Answer::Passed
}

// The row after k rows, of which so many are heads, with refusals 4, 1, 2 and 3.
pub fn next_row(kind: Kind, heads: usize, text: &[u8], k: usize) -> Next
    requires { (k ≤ row_limit) × (k * row_width ≤ length text.now) }
    ensures { result ≡ next_of kind heads k (drop (k * row_width) text.now) }
{
    let cut = is_ragged(text, k * Sheet::ROW);
    let row = row_at(text, k * Sheet::ROW, cut);
    let answer = early_answer(kind, heads, cut, row, k);
    Next { answer, row }
}

// Refusal 8 in a row, after contexts with this table of ports, of which the last has this number.
pub fn row_clash(
    kind: Kind,
    pattern: [u16; Sheet::NUMBERS],
    ports: [u16; Sheet::NUMBERS],
    last: u16,
    row: Row,
) -> bool
    requires { Ranged row }
    ensures { (l : List Context) → last ≡ last_number l → ports ≡ port_table l → result ≡ clashes kind pattern l row }
{
    let nums = row.nums;
    let letter = row.letter;
    if letter == Row::HEAD {
        return nums[0] <= last;
    }
    if letter == Row::CONTEXT {
        let number = nums[0] as usize;
        return ports_clash(kind, ports[number], pattern[number], nums[1] + 1);
    }
    false
}

// Refusals 5 to 8 at row `at`, by the counts with it.
pub fn late_answer(
    kind: Kind,
    atoms: usize,
    contexts: usize,
    links: usize,
    marks: usize,
    clash: bool,
    at: usize,
) -> Answer
    ensures { result ≡ answer_of (first_of (late_tests kind atoms contexts links marks clash)) at }
{
    let limits = limits_of(kind);
    if limits.atoms < atoms {
        return Answer::Refused(Refusal::Crowded, at);
    }
    if limits.contexts < contexts {
        return Answer::Refused(Refusal::Crowded, at);
    }
    if limits.links < links {
        return Answer::Refused(Refusal::Joints, at);
    }
    if limits.marks < marks {
        return Answer::Refused(Refusal::Marks, at);
    }
    if clash {
        return Answer::Refused(Refusal::BlankClash, at);
    }
    Answer::Passed
}
