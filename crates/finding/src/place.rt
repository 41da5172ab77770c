// The task place: the fillings with which a pattern is a sheet, as a list, into an output buffer.
ghost use Rattle.std.specs.Prelude.{◌≡◌, List, ℕ, ◌≤◌, length};
ghost use Rattle.normalising.specs.NormalText.{slip_length};
ghost use Rattle.answers.specs.Done.{slip_after};
ghost use Rattle.finding.specs.Place.{placed_fillings, placed_answer, placed_text, place_answer, place_slip};
ghost use Rattle.finding.specs.Inputs.{PlaceInputs};

use answers::outcome::Done;
use listing::write_fillings;
use matching::search::smallest_placing;
use reading::read::{read_pattern, read_sheet};
use rows::Sheet;
use sheet::answer::Answer;

// A sheet and a pattern that passed: the fillings of the smallest good placing.
fn place_normals(sheet: Sheet, pattern: Sheet, out: &mut [u8]) -> Done
    requires by_index { (s : List ℕ) × ((p : List ℕ) × PlaceInputs sheet pattern s p) }
    requires slip_length_in_bounds { slip_length ≤ length out.old }
    ensures by_index_2 { (s p : List ℕ) → PlaceInputs sheet pattern s p → result ≡ placed_answer (placed_fillings s p) }
    ensures by_index_3 { (s p : List ℕ) → PlaceInputs sheet pattern s p → out.new ≡ slip_after result (placed_text (placed_fillings s p)) out.old }
{
    let found = smallest_placing(sheet, pattern);
    if !found.ok {
        return Done::NoPlacing;
    }
    let links_to = found.links_to;
    let given = found.given;
    let bytes = write_fillings(sheet, pattern, links_to, given, out);
    Done::Written(bytes)
}

// The buffer first, then the texts in task order, each row by row.
pub fn place(sheet: &[u8], pattern: &[u8], out: &mut [u8]) -> Done
    ensures value { result ≡ place_answer sheet.now pattern.now (length out.old) }
    ensures out_after { out.new ≡ place_slip sheet.now pattern.now out.old }
{
    if out.len() < Sheet::SLIP {
        return Done::ShortSlip;
    }
    let first = read_sheet(sheet);
    let one = first.answer;
    match one {
        Answer::Refused(why, row) => Done::Refused(1, why, row),
        Answer::Passed => {
            let second = read_pattern(pattern);
            let two = second.answer;
            match two {
                Answer::Refused(why, row) => Done::Refused(2, why, row),
                Answer::Passed => {
                    let whole = first.normal;
                    let part = second.normal;
                    place_normals(whole, part, out)
                }
            }
        }
    }
}
