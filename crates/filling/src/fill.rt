// The task fill: a figure with its contexts filled from a list, as normal text, into an output buffer.
ghost use Rattle.std.specs.Prelude.{◌≡◌, List, ℕ, ◌≤◌, length};
ghost use Rattle.reading.specs.NormalSheet.{packed_normal};
ghost use Rattle.normalising.specs.NormalText.{slip_length};
ghost use Rattle.filling.specs.Parts.{Headed};
ghost use Rattle.answers.specs.Done.{slip_after};
ghost use Rattle.filling.specs.Fill.{figure_held, filled_text, filled_answer, fill_answer, fill_slip};

use crate::filled::normal_filled;
use crate::part::{first_differing, first_lacking};
use answers::outcome::Done;
use normalising::normal_text::write_normal;
use reading::read::{read_figure, read_list};
use rows::{Context, Sheet};
use sheet::answer::Answer;

// A figure and a list that passed row by row.
fn fill_read(
    figure: Sheet,
    heads: [Context; Sheet::CONTEXT_ROOM],
    head_count: usize,
    ports: [u16; Sheet::NUMBERS],
    list: &[u8],
    out: &mut [u8],
) -> Done
    requires by_index { ((text : List ℕ) × (figure ≡ packed_normal (figure_held text))) × Headed heads head_count ports list.now }
    requires slip_length_in_bounds { slip_length ≤ length out.old }
    ensures by_index_2 { (text : List ℕ) → figure ≡ packed_normal (figure_held text) → result ≡ filled_answer text list.now }
    ensures by_index_3 { (text : List ℕ) → figure ≡ packed_normal (figure_held text) → out.new ≡ slip_after result (filled_text text list.now) out.old }
{
    let contexts = figure.contexts;
    let lacking = first_lacking(contexts, figure.context_count, ports);
    if lacking != 0 {
        return Done::BlankClash(1, lacking);
    }
    let mut exact = [0u16; Sheet::NUMBERS];
    let normal = normal_filled(figure, list, heads, head_count, &mut exact);
    let other = first_differing(heads, head_count, list, &exact);
    if other != 0 {
        return Done::EdgeDiffers(2, other);
    }
    if Sheet::ATOMS < normal.atom_count {
        return Done::TooLarge;
    }
    if Sheet::LINKS < normal.class_count {
        return Done::TooLarge;
    }
    let bytes = write_normal(normal, out);
    Done::Written(bytes)
}

pub fn fill(figure: &[u8], list: &[u8], out: &mut [u8]) -> Done
    ensures value { result ≡ fill_answer figure.now list.now (length out.old) }
    ensures out_after { out.new ≡ fill_slip figure.now list.now out.old }
{
    if out.len() < Sheet::SLIP {
        return Done::ShortSlip;
    }
    let figure_reading = read_figure(figure);
    let figure_answer = figure_reading.answer;
    match figure_answer {
        Answer::Passed => {
            let list_reading = read_list(list);
            let list_answer = list_reading.answer;
            match list_answer {
                Answer::Passed => {
                    let normal = figure_reading.normal;
                    let heads = list_reading.normal.contexts;
                    let head_count = list_reading.normal.context_count;
                    let ports = list_reading.ports;
                    fill_read(normal, heads, head_count, ports, list, out)
                }
                Answer::Refused(why, row) => Done::Refused(2, why, row),
            }
        }
        Answer::Refused(why, row) => Done::Refused(1, why, row),
    }
}
