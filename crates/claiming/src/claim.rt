// The task claim: whether a figure, filled from a list, is the same as a sheet.
ghost use Rattle.std.specs.Prelude.{◌≡◌, List, ℕ};
ghost use Rattle.placing.specs.Smallest.{smallest};
ghost use Rattle.network.specs.NetIn.{net_in};
ghost use Rattle.network.specs.Ready.{Ready};
ghost use Rattle.filling.specs.Parts.{Headed};
ghost use Rattle.claiming.specs.Claim.{placed_claim, claimed_answer, claim_answer};
ghost use Rattle.claiming.specs.Inputs.{ClaimInputs};

use answers::outcome::Claimed;
use filling::filled::normal_filled;
use filling::part::{first_differing, first_lacking};
use matching::search::smallest_placing;
use reading::read::{read_figure, read_list, read_sheet};
use rows::{Context, Sheet};
use rowwise::identical::identical;
use sheet::answer::Answer;

// Whether the filled figure can be placed in the sheet. With fewer atoms and no contexts it cannot.
fn claim_filled(sheet: Sheet, filled: Sheet) -> Claimed
    requires { Ready sheet filled }
    ensures { result ≡ placed_claim (smallest (net_in sheet) (net_in filled)) }
{
    if filled.context_count == 0 {
        if filled.atom_count < sheet.atom_count {
            return Claimed::Differs;
        }
    }
    if identical(sheet, filled) {
        return Claimed::Holds;
    }
    let found = smallest_placing(sheet, filled);
    if found.ok {
        return Claimed::Holds;
    }
    Claimed::Differs
}

// Texts that passed row by row. Too large a filled figure is no sheet.
fn claim_read(
    sheet: Sheet,
    figure: Sheet,
    heads: [Context; Sheet::CONTEXT_ROOM],
    head_count: usize,
    ports: [u16; Sheet::NUMBERS],
    list: &[u8],
) -> Claimed
    requires { ((s : List ℕ) × ((f : List ℕ) × ClaimInputs sheet figure s f)) × Headed heads head_count ports list.now }
    ensures { (s f : List ℕ) → ClaimInputs sheet figure s f → result ≡ claimed_answer s f list.now }
{
    let contexts = figure.contexts;
    let clash = first_lacking(contexts, figure.context_count, ports);
    if clash != 0 {
        return Claimed::BlankClash(2, clash);
    }
    let mut exact = [0u16; Sheet::NUMBERS];
    let filled = normal_filled(figure, list, heads, head_count, &mut exact);
    let other = first_differing(heads, head_count, list, &exact);
    if other != 0 {
        return Claimed::EdgeDiffers(3, other);
    }
    if Sheet::ATOMS < filled.atom_count {
        return Claimed::Differs;
    }
    if Sheet::LINKS < filled.class_count {
        return Claimed::Differs;
    }
    claim_filled(sheet, filled)
}

// The texts in task order, each row by row.
pub fn claim(sheet: &[u8], figure: &[u8], list: &[u8]) -> Claimed
    ensures { result ≡ claim_answer sheet.now figure.now list.now }
{
    let first = read_sheet(sheet);
    let one = first.answer;
    match one {
        Answer::Refused(why, row) => Claimed::Refused(1, why, row),
        Answer::Passed => {
            let second = read_figure(figure);
            let two = second.answer;
            match two {
                Answer::Refused(why, row) => Claimed::Refused(2, why, row),
                Answer::Passed => {
                    let third = read_list(list);
                    let three = third.answer;
                    match three {
                        Answer::Refused(why, row) => Claimed::Refused(3, why, row),
                        Answer::Passed => {
                            let whole = first.normal;
                            let part = second.normal;
                            let heads = third.normal.contexts;
                            let head_count = third.normal.context_count;
                            let ports = third.ports;
                            claim_read(whole, part, heads, head_count, ports, list)
                        }
                    }
                }
            }
        }
    }
}
