// The list of the fillings of a placing, written as text.
#![tactic(auto)]

pub mod numbers;
mod order;
pub mod ports;
mod put_rows;

ghost use Rattle.std.specs.Prelude.{◌≡◌, List, ◌++◌, ℕ, ◌+◌, ◌<◌, ◌≤◌, length, take, drop, get_or};
ghost use Rattle.rows.specs.Format.{most_name, most_number};
ghost use Rattle.rows.specs.Limits.{sheet_atom_limit, sheet_link_limit};
ghost use Rattle.numbering.specs.Numbering.{number_room};
ghost use Rattle.normalising.specs.NormalText.{slip_length};
ghost use Rattle.placing.specs.Net.{Apart};
ghost use Rattle.network.specs.NetIn.{net_in, context_in, atom_at, Used, Fit};
ghost use Rattle.network.specs.Ready.{Ready, LinksIn};
ghost use Rattle.listing.specs.Writing.{Columns, fillings_text, stands_at, filling_bytes};

use crate::order::context_ranked;
use crate::ports::ports_of;
use crate::put_rows::{put_pair, put_ports, put_symbols};
use numbering::classes::ROOM;
use rows::{Context, Sheet};

// The filling of a context, from byte `at` on; the byte after it.
fn put_filling<'a>(
    sheet: Sheet,
    context: Context,
    links_to: &'a [u16],
    given: &'a [u16],
    out: &mut [u8],
    at: usize,
) -> usize
    requires fit { Fit sheet × (length links_to.now ≡ sheet_link_limit) × (length given.now ≡ sheet_atom_limit) × ((i : ℕ) → i < sheet.atom_count → (atom_at sheet i).name ≤ most_name) × Used sheet_link_limit context.count context.links × (context.number ≤ most_number) }
    requires by_index { (k : ℕ) → k < context.count → stands_at sheet.class_count links_to.now (get_or context.links k 0) < number_room }
    requires context_in_bounds { at + length (filling_bytes sheet links_to.now given.now (context_in context)) ≤ length out.old }
    ensures value { result ≡ at + length (filling_bytes sheet links_to.now given.now (context_in context)) }
    ensures out_after { out.new ≡ take at out.old ++ filling_bytes sheet links_to.now given.now (context_in context) ++ drop (at + length (filling_bytes sheet links_to.now given.now (context_in context))) out.old }
{
    let number = context.number;
    let links = context.links;
    let count = context.count as usize;
    let ports = ports_of(sheet.class_count, links_to, links, count);
    let mut numbers = [0u16; ROOM];
    let mut numbered = 0;
    put_pair(out, at, b'H', number, context.count);
    let end = put_symbols(
        &mut numbers,
        &mut numbered,
        sheet,
        given,
        number,
        out,
        at + Sheet::ROW,
    );
    put_ports(&mut numbers, &mut numbered, ports, count, out, end)
}

// The fillings of the figure's contexts by a placing, each as normal text of its own after its head, in
// ascending order of the contexts' numbers; the number of bytes.
pub fn write_fillings(
    sheet: Sheet,
    figure: Sheet,
    links_to: [u16; Sheet::LINKS],
    given: [u16; Sheet::ATOMS],
    out: &mut [u8],
) -> usize
    requires ready { Ready sheet figure × LinksIn sheet figure links_to × (length given ≡ sheet_atom_limit) × Apart (net_in figure).contexts × Columns sheet figure }
    requires slip_length_in_bounds { slip_length ≤ length out.old }
    ensures by_index { (atoms : List ℕ) → result ≡ length (fillings_text sheet figure atoms links_to given) }
    ensures by_index_2 { (atoms : List ℕ) → out.new ≡ fillings_text sheet figure atoms links_to given ++ drop (length (fillings_text sheet figure atoms links_to given)) out.old }
{
    let contexts = figure.contexts;
    let mut at = 0;
    for i in 0..figure.context_count {
        let j = context_ranked(contexts, figure.context_count, i);
        let context = contexts[j];
        at = put_filling(sheet, context, &links_to, &given, out, at);
    }
    at
}
