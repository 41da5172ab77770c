// The tasks as C and Rust callers link them, in libplacer.a; include/placer.h declares them. A text, and the
// output buffer, is a pointer and a length. Each function returns the table's number and writes the other values
// of the answer through its last parameters. Nothing is asked of the texts or of the buffer's length.
#![tactic(auto)]

ghost use Rattle.std.specs.Prelude.{◌≡◌, length};
ghost use Rattle.normalising.specs.NormalText.{normalised_answer, normalised_slip, normalised_number, normalised_input, normalised_row, normalised_bytes};
ghost use Rattle.answers.specs.Done.{done_number, done_input, done_row, done_bytes};
ghost use Rattle.filling.specs.Fill.{fill_answer, fill_slip};
ghost use Rattle.comparing.specs.Compare.{compare_answer};
ghost use Rattle.answers.specs.Compared.{compared_number, compared_input, compared_row, compared_bytes, compared_yes};
ghost use Rattle.finding.specs.Place.{place_answer, place_slip};
ghost use Rattle.claiming.specs.Claim.{claim_answer};
ghost use Rattle.answers.specs.Claimed.{claimed_number, claimed_input, claimed_row, claimed_bytes, claimed_yes};
ghost use Rattle.swapping.specs.Swap.{swap_answer, swap_slip};

use sheet::kind::Kind;

// The normal text of a sheet.
#[unsafe(no_mangle)]
pub extern "C" fn placer_normalise_sheet(
    text: &[u8],
    out: &mut [u8],
    input: &mut u16,
    row: &mut usize,
    bytes: &mut usize,
) -> u16
    ensures out { out.new ≡ normalised_slip Kind.Plain text.now out.old }
    ensures number { result ≡ normalised_number (normalised_answer Kind.Plain text.now (length out.old)) }
    ensures input { input.new ≡ normalised_input (normalised_answer Kind.Plain text.now (length out.old)) }
    ensures row { row.new ≡ normalised_row (normalised_answer Kind.Plain text.now (length out.old)) }
    ensures bytes { bytes.new ≡ normalised_bytes (normalised_answer Kind.Plain text.now (length out.old)) }
{
    placer::placer_normalise_sheet(text, out, input, row, bytes)
}

// The normal text of a figure.
#[unsafe(no_mangle)]
pub extern "C" fn placer_normalise_figure(
    text: &[u8],
    out: &mut [u8],
    input: &mut u16,
    row: &mut usize,
    bytes: &mut usize,
) -> u16
    ensures out { out.new ≡ normalised_slip Kind.Figure text.now out.old }
    ensures number { result ≡ normalised_number (normalised_answer Kind.Figure text.now (length out.old)) }
    ensures input { input.new ≡ normalised_input (normalised_answer Kind.Figure text.now (length out.old)) }
    ensures row { row.new ≡ normalised_row (normalised_answer Kind.Figure text.now (length out.old)) }
    ensures bytes { bytes.new ≡ normalised_bytes (normalised_answer Kind.Figure text.now (length out.old)) }
{
    placer::placer_normalise_figure(text, out, input, row, bytes)
}

// The figure filled from the list, as normal text.
#[unsafe(no_mangle)]
pub extern "C" fn placer_fill(
    figure: &[u8],
    list: &[u8],
    out: &mut [u8],
    input: &mut u16,
    row: &mut usize,
    bytes: &mut usize,
) -> u16
    ensures out { out.new ≡ fill_slip figure.now list.now out.old }
    ensures number { result ≡ done_number (fill_answer figure.now list.now (length out.old)) }
    ensures input { input.new ≡ done_input (fill_answer figure.now list.now (length out.old)) }
    ensures row { row.new ≡ done_row (fill_answer figure.now list.now (length out.old)) }
    ensures bytes { bytes.new ≡ done_bytes (fill_answer figure.now list.now (length out.old)) }
{
    placer::placer_fill(figure, list, out, input, row, bytes)
}

// The list of fillings with which the pattern is the sheet.
#[unsafe(no_mangle)]
pub extern "C" fn placer_place(
    sheet: &[u8],
    pattern: &[u8],
    out: &mut [u8],
    input: &mut u16,
    row: &mut usize,
    bytes: &mut usize,
) -> u16
    ensures out { out.new ≡ place_slip sheet.now pattern.now out.old }
    ensures number { result ≡ done_number (place_answer sheet.now pattern.now (length out.old)) }
    ensures input { input.new ≡ done_input (place_answer sheet.now pattern.now (length out.old)) }
    ensures row { row.new ≡ done_row (place_answer sheet.now pattern.now (length out.old)) }
    ensures bytes { bytes.new ≡ done_bytes (place_answer sheet.now pattern.now (length out.old)) }
{
    placer::placer_place(sheet, pattern, out, input, row, bytes)
}

// The sheet with the pattern swapped for the replacement, as normal text.
#[unsafe(no_mangle)]
pub extern "C" fn placer_swap(
    sheet: &[u8],
    pattern: &[u8],
    replacement: &[u8],
    out: &mut [u8],
    input: &mut u16,
    row: &mut usize,
    bytes: &mut usize,
) -> u16
    ensures out { out.new ≡ swap_slip sheet.now pattern.now replacement.now out.old }
    ensures number { result ≡ done_number (swap_answer sheet.now pattern.now replacement.now (length out.old)) }
    ensures input { input.new ≡ done_input (swap_answer sheet.now pattern.now replacement.now (length out.old)) }
    ensures row { row.new ≡ done_row (swap_answer sheet.now pattern.now replacement.now (length out.old)) }
    ensures bytes { bytes.new ≡ done_bytes (swap_answer sheet.now pattern.now replacement.now (length out.old)) }
{
    placer::placer_swap(sheet, pattern, replacement, out, input, row, bytes)
}

// Whether two sheets are the same.
#[unsafe(no_mangle)]
pub extern "C" fn placer_compare(
    a: &[u8],
    b: &[u8],
    input: &mut u16,
    row: &mut usize,
    bytes: &mut usize,
    yes: &mut bool,
) -> u16
    ensures number { result ≡ compared_number (compare_answer a.now b.now) }
    ensures input { input.new ≡ compared_input (compare_answer a.now b.now) }
    ensures row { row.new ≡ compared_row (compare_answer a.now b.now) }
    ensures bytes { bytes.new ≡ compared_bytes (compare_answer a.now b.now) }
    ensures yes { yes.new ≡ compared_yes (compare_answer a.now b.now) }
{
    placer::placer_compare(a, b, input, row, bytes, yes)
}

// Whether the figure, filled from the list, is the same as the sheet.
#[unsafe(no_mangle)]
pub extern "C" fn placer_claim(
    sheet: &[u8],
    figure: &[u8],
    list: &[u8],
    input: &mut u16,
    row: &mut usize,
    bytes: &mut usize,
    yes: &mut bool,
) -> u16
    ensures number { result ≡ claimed_number (claim_answer sheet.now figure.now list.now) }
    ensures input { input.new ≡ claimed_input (claim_answer sheet.now figure.now list.now) }
    ensures row { row.new ≡ claimed_row (claim_answer sheet.now figure.now list.now) }
    ensures bytes { bytes.new ≡ claimed_bytes (claim_answer sheet.now figure.now list.now) }
    ensures yes { yes.new ≡ claimed_yes (claim_answer sheet.now figure.now list.now) }
{
    placer::placer_claim(sheet, figure, list, input, row, bytes, yes)
}
