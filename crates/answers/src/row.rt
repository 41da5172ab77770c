// What a program prints of an answer: a row with letter A, number, input, row and, for compare and claim, 1 or 0; then the
// bytes that were written.
ghost use Rattle.std.specs.Prelude.{◌≡◌, [], ◌∷◌, ◌≤◌, take};
ghost use Rattle.rows.specs.Pick.{pick};
ghost use Rattle.writing.specs.RowText.{row_bytes};
ghost use Rattle.answers.specs.AnswerRow.{answer_letter, last_digits, answer_row, verdict_row};

use crate::{TaskAnswer, Verdict};
use rows::Sheet;
use writing::write::put_row;

// How many numbers a field can hold.
const FIELD_NUMBERS: u16 = Sheet::MOST_NUMBER + 1;

// The first count of these numbers, each by as many of its last digits as a field has columns.
fn numbers_row(number: u16, input: u16, row: usize, yes: bool, count: usize) -> [u8; Sheet::ROW]
    requires { count ≤ 4 }
    ensures { result ≡ row_bytes answer_letter (take count (last_digits number ∷ last_digits input ∷ last_digits row ∷ pick yes 1 0 ∷ [])) }
{
    let mut nums = [0u16; Sheet::FIELDS];
    nums[0] = number % FIELD_NUMBERS;
    nums[1] = input % FIELD_NUMBERS;
    nums[2] = (row % FIELD_NUMBERS as usize) as u16;
    nums[3] = yes as u16;
    let mut line = [0u8; Sheet::ROW];
    put_row(&mut line, 0, b'A', nums, count);
    line
}

pub fn answer_row(answer: TaskAnswer) -> [u8; Sheet::ROW]
    ensures { result ≡ answer_row answer }
{
    numbers_row(answer.number, answer.input, answer.row, false, 3)
}

pub fn verdict_row(verdict: Verdict) -> [u8; Sheet::ROW]
    ensures { result ≡ verdict_row verdict }
{
    numbers_row(verdict.number, verdict.input, verdict.row, verdict.yes, 4)
}

// The bytes of the output buffer that were written.
pub fn written_part(answer: TaskAnswer, out: &[u8]) -> &[u8]
    ensures { result.now ≡ take answer.bytes out.now }
{
    let n = answer.bytes;
    if n < out.len() { &out[..n] } else { out }
}
