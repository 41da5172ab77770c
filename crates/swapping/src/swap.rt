// The task swap: the replacement with the fillings of the placed pattern, as normal text, into an output buffer.
ghost use Rattle.std.specs.Prelude.{◌≡◌, List, ℕ, ◌≤◌, length};
ghost use Rattle.normalising.specs.NormalText.{slip_length};
ghost use Rattle.answers.specs.Done.{slip_after};
ghost use Rattle.swapping.specs.Swap.{swap_answer, swap_slip};
ghost use Rattle.swapping.specs.Inputs.{SwapInputs, swap_read, swap_text};

use crate::given::swapped;
use answers::outcome::Done;
use matching::search::smallest_placing;
use normalising::normal_text::write_normal;
use reading::read::{read_pattern, read_replacement, read_sheet};
use rows::Sheet;
use rowwise::identical::same_marks;
use sheet::answer::Answer;

// Texts that passed row by row: the replacement is filled with what the placing of the pattern gives to its contexts.
fn swap_read(sheet: Sheet, pattern: Sheet, replacement: Sheet, out: &mut [u8]) -> Done
    requires by_index { (s : List ℕ) × ((p : List ℕ) × ((q : List ℕ) × SwapInputs sheet pattern replacement s p q)) }
    requires slip_length_in_bounds { slip_length ≤ length out.old }
    ensures by_index_2 { (s p q : List ℕ) → SwapInputs sheet pattern replacement s p q → result ≡ swap_read s p q }
    ensures by_index_3 { (s p q : List ℕ) → SwapInputs sheet pattern replacement s p q → out.new ≡ slip_after result (swap_text s p q) out.old }
{
    let m = replacement.mark_count;
    if !same_marks(&replacement.marks, m, &pattern.marks, pattern.mark_count) {
        return Done::EdgeDiffers(3, 0);
    }
    let found = smallest_placing(sheet, pattern);
    if !found.ok {
        return Done::NoPlacing;
    }
    let links_to = found.links_to;
    let given = found.given;
    let normal = swapped(sheet, pattern, replacement, links_to, given);
    if Sheet::ATOMS < normal.atom_count {
        return Done::TooLarge;
    }
    if Sheet::LINKS < normal.class_count {
        return Done::TooLarge;
    }
    let bytes = write_normal(normal, out);
    Done::Written(bytes)
}

// The buffer first, then the texts in task order, each row by row.
pub fn swap(sheet: &[u8], pattern: &[u8], replacement: &[u8], out: &mut [u8]) -> Done
    ensures value { result ≡ swap_answer sheet.now pattern.now replacement.now (length out.old) }
    ensures out_after { out.new ≡ swap_slip sheet.now pattern.now replacement.now out.old }
{
    if out.len() < Sheet::SLIP {
        return Done::ShortSlip;
    }
    let first = read_sheet(sheet);
    let one = first.answer;
    match one {
        Answer::Refused(why, row) => Done::Refused(1, why, row),
        Answer::Passed => {
            let second = read_pattern(pattern);
            let two = second.answer;
            match two {
                Answer::Refused(why, row) => Done::Refused(2, why, row),
                Answer::Passed => {
                    let ports = second.ports;
                    let third = read_replacement(ports, replacement);
                    let three = third.answer;
                    match three {
                        Answer::Refused(why, row) => Done::Refused(3, why, row),
                        Answer::Passed => {
                            let whole = first.normal;
                            let part = second.normal;
                            let other = third.normal;
                            swap_read(whole, part, other, out)
                        }
                    }
                }
            }
        }
    }
}
