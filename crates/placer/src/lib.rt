// The tasks as placer_c exports them to C and Rust callers. Each function returns the table's number and writes the
// other values of the answer through its last parameters. Nothing is asked of the texts or of the buffer's length.
#![tactic(auto)]

ghost use Rattle.std.specs.Prelude.{◌≡◌, length};
ghost use Rattle.normalising.specs.NormalText.{normalised_answer, normalised_slip, normalised_number, normalised_input, normalised_row, normalised_bytes};
ghost use Rattle.answers.specs.Done.{done_number, done_input, done_row, done_bytes};
ghost use Rattle.filling.specs.Fill.{fill_answer, fill_slip};
ghost use Rattle.comparing.specs.Compare.{compare_answer};
ghost use Rattle.answers.specs.Compared.{compared_number, compared_input, compared_row, compared_bytes, compared_yes};
ghost use Rattle.finding.specs.Place.{place_answer, place_slip};
ghost use Rattle.claiming.specs.Claim.{claim_answer};
ghost use Rattle.answers.specs.Claimed.{claimed_number, claimed_input, claimed_row, claimed_bytes, claimed_yes};
ghost use Rattle.swapping.specs.Swap.{swap_answer, swap_slip};

use answers::{TaskAnswer, Verdict, of_claimed, of_compared, of_done, of_normalised};
use claiming::claim::claim;
use comparing::compare::compare;
use filling::fill::fill;
use finding::place::place;
use normalising::normalise::{normalise_figure, normalise_sheet};
use sheet::kind::Kind;
use swapping::swap::swap;

// The values of an answer, each where the caller wants it.
fn hand_out(answer: TaskAnswer, input: &mut u16, row: &mut usize, bytes: &mut usize) -> u16
    ensures number { result ≡ answer.number }
    ensures input { input.new ≡ answer.input }
    ensures row { row.new ≡ answer.row }
    ensures bytes { bytes.new ≡ answer.bytes }
{
    *input = answer.input;
    *row = answer.row;
    *bytes = answer.bytes;
    answer.number
}

// The same for a yes or no.
fn hand_verdict(
    verdict: Verdict,
    input: &mut u16,
    row: &mut usize,
    bytes: &mut usize,
    yes: &mut bool,
) -> u16
    ensures number { result ≡ verdict.number }
    ensures input { input.new ≡ verdict.input }
    ensures row { row.new ≡ verdict.row }
    ensures bytes { bytes.new ≡ verdict.bytes }
    ensures yes { yes.new ≡ verdict.yes }
{
    *input = verdict.input;
    *row = verdict.row;
    *bytes = verdict.bytes;
    *yes = verdict.yes;
    verdict.number
}

// The normal text of a sheet.
pub fn placer_normalise_sheet(
    text: &[u8],
    out: &mut [u8],
    input: &mut u16,
    row: &mut usize,
    bytes: &mut usize,
) -> u16
    ensures out { out.new ≡ normalised_slip Kind.Plain text.now out.old }
    ensures number { result ≡ normalised_number (normalised_answer Kind.Plain text.now (length out.old)) }
    ensures input { input.new ≡ normalised_input (normalised_answer Kind.Plain text.now (length out.old)) }
    ensures row { row.new ≡ normalised_row (normalised_answer Kind.Plain text.now (length out.old)) }
    ensures bytes { bytes.new ≡ normalised_bytes (normalised_answer Kind.Plain text.now (length out.old)) }
{
    hand_out(of_normalised(normalise_sheet(text, out)), input, row, bytes)
}

// The normal text of a figure.
pub fn placer_normalise_figure(
    text: &[u8],
    out: &mut [u8],
    input: &mut u16,
    row: &mut usize,
    bytes: &mut usize,
) -> u16
    ensures out { out.new ≡ normalised_slip Kind.Figure text.now out.old }
    ensures number { result ≡ normalised_number (normalised_answer Kind.Figure text.now (length out.old)) }
    ensures input { input.new ≡ normalised_input (normalised_answer Kind.Figure text.now (length out.old)) }
    ensures row { row.new ≡ normalised_row (normalised_answer Kind.Figure text.now (length out.old)) }
    ensures bytes { bytes.new ≡ normalised_bytes (normalised_answer Kind.Figure text.now (length out.old)) }
{
    let done = normalise_figure(text, out);
    hand_out(of_normalised(done), input, row, bytes)
}

// The figure filled from the list, as normal text.
pub fn placer_fill(
    figure: &[u8],
    list: &[u8],
    out: &mut [u8],
    input: &mut u16,
    row: &mut usize,
    bytes: &mut usize,
) -> u16
    ensures out { out.new ≡ fill_slip figure.now list.now out.old }
    ensures number { result ≡ done_number (fill_answer figure.now list.now (length out.old)) }
    ensures input { input.new ≡ done_input (fill_answer figure.now list.now (length out.old)) }
    ensures row { row.new ≡ done_row (fill_answer figure.now list.now (length out.old)) }
    ensures bytes { bytes.new ≡ done_bytes (fill_answer figure.now list.now (length out.old)) }
{
    hand_out(of_done(fill(figure, list, out)), input, row, bytes)
}

// The list of fillings with which the pattern is the sheet.
pub fn placer_place(
    sheet: &[u8],
    pattern: &[u8],
    out: &mut [u8],
    input: &mut u16,
    row: &mut usize,
    bytes: &mut usize,
) -> u16
    ensures out { out.new ≡ place_slip sheet.now pattern.now out.old }
    ensures number { result ≡ done_number (place_answer sheet.now pattern.now (length out.old)) }
    ensures input { input.new ≡ done_input (place_answer sheet.now pattern.now (length out.old)) }
    ensures row { row.new ≡ done_row (place_answer sheet.now pattern.now (length out.old)) }
    ensures bytes { bytes.new ≡ done_bytes (place_answer sheet.now pattern.now (length out.old)) }
{
    hand_out(of_done(place(sheet, pattern, out)), input, row, bytes)
}

// The sheet with the pattern swapped for the replacement, as normal text.
pub fn placer_swap(
    sheet: &[u8],
    pattern: &[u8],
    replacement: &[u8],
    out: &mut [u8],
    input: &mut u16,
    row: &mut usize,
    bytes: &mut usize,
) -> u16
    ensures out { out.new ≡ swap_slip sheet.now pattern.now replacement.now out.old }
    ensures number { result ≡ done_number (swap_answer sheet.now pattern.now replacement.now (length out.old)) }
    ensures input { input.new ≡ done_input (swap_answer sheet.now pattern.now replacement.now (length out.old)) }
    ensures row { row.new ≡ done_row (swap_answer sheet.now pattern.now replacement.now (length out.old)) }
    ensures bytes { bytes.new ≡ done_bytes (swap_answer sheet.now pattern.now replacement.now (length out.old)) }
{
    let done = swap(sheet, pattern, replacement, out);
    hand_out(of_done(done), input, row, bytes)
}

// Whether two sheets are the same.
pub fn placer_compare(
    a: &[u8],
    b: &[u8],
    input: &mut u16,
    row: &mut usize,
    bytes: &mut usize,
    yes: &mut bool,
) -> u16
    ensures number { result ≡ compared_number (compare_answer a.now b.now) }
    ensures input { input.new ≡ compared_input (compare_answer a.now b.now) }
    ensures row { row.new ≡ compared_row (compare_answer a.now b.now) }
    ensures bytes { bytes.new ≡ compared_bytes (compare_answer a.now b.now) }
    ensures yes { yes.new ≡ compared_yes (compare_answer a.now b.now) }
{
    hand_verdict(of_compared(compare(a, b)), input, row, bytes, yes)
}

// Whether the figure, filled from the list, is the same as the sheet.
pub fn placer_claim(
    sheet: &[u8],
    figure: &[u8],
    list: &[u8],
    input: &mut u16,
    row: &mut usize,
    bytes: &mut usize,
    yes: &mut bool,
) -> u16
    ensures number { result ≡ claimed_number (claim_answer sheet.now figure.now list.now) }
    ensures input { input.new ≡ claimed_input (claim_answer sheet.now figure.now list.now) }
    ensures row { row.new ≡ claimed_row (claim_answer sheet.now figure.now list.now) }
    ensures bytes { bytes.new ≡ claimed_bytes (claim_answer sheet.now figure.now list.now) }
    ensures yes { yes.new ≡ claimed_yes (claim_answer sheet.now figure.now list.now) }
{
    let claimed = claim(sheet, figure, list);
    hand_verdict(of_claimed(claimed), input, row, bytes, yes)
}
