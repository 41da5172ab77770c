// A replacement filled with what a placing gives to the blanks of the pattern.
ghost use Rattle.std.specs.Prelude.{◌≡◌, List, map, ℕ, ◌+◌, ◌<◌, ◌≤◌, length, take};
ghost use Rattle.hyperlmntal.specs.Link.{◌∈◌};
ghost use Rattle.rows.specs.Limits.{sheet_atom_limit, figure_contexts, atom_room};
ghost use Rattle.reading.specs.NormalSheet.{packed_normal};
ghost use Rattle.numbering.specs.Numbering.{numbering, no_numbers, with_classes};
ghost use Rattle.placing.specs.Net.{NetCell, cell_links};
ghost use Rattle.network.specs.NetIn.{net_in, row_at, Fit};
ghost use Rattle.network.specs.Ready.{Ready, LinksIn};
ghost use Rattle.listing.specs.Writing.{Narrow, number_in, given_cells};
ghost use Rattle.filling.specs.Read.{list_held};
ghost use Rattle.filling.specs.Fill.{figure_held, first_lacking, first_differing};
ghost use Rattle.filling.specs.Filled.{FilledIs};
ghost use Rattle.filling.specs.Glued.{Own};
ghost use Rattle.filling.specs.Whole.{ContextsRanged, Grown, Puts};
ghost use Rattle.swapping.specs.Given.{placed_cell, GivenPart, Covered};

use filling::filled::numbered_whole;
use filling::glue::{PLACES, own_labels, with_ports};
use filling::whole::{Whole, placed};
use listing::numbers::numbers_of;
use listing::ports::ports_of;
use numbering::classes::ROOM;
use rows::{Atom, Context, Sheet};

// The sheet atoms that are given to a context, as atoms of part p, as many as there is room for. Their links are
// numbered in the order in which they first appear.
fn with_given(
    mut whole: Whole,
    p: usize,
    numbers: &mut [u16; ROOM],
    numbered: &mut usize,
    sheet: Sheet,
    given: &[u16],
    number: u16,
) -> Whole
    requires { Fit sheet × (length given.now ≡ sheet_atom_limit) × (p ≤ figure_contexts) × (whole.count ≤ atom_room) × (numbering numbers.old numbered.old ≡ no_numbers) }
    ensures numbered_after { numbering numbers.new numbered.new ≡ with_classes no_numbers (cell_links (given_cells sheet given.now number)) }
    ensures by_index { (later : List ℕ) → Grown whole result (map (placed_cell p (number_in (with_classes (numbering numbers.new numbered.new) later).numbers)) (given_cells sheet given.now number)) }
{
    let mut i = 0;
    while i < sheet.atom_count {
        if given[i] == number {
            let atom = sheet.atoms[i];
            let before = atom.links;
            let more = numbers_of(numbers, numbered, before, atom.count as usize);
            let links = placed(p, more);
            let n = whole.count;
            if n < Sheet::ATOM_ROOM {
                whole.atoms[n] = Atom {
                    name: atom.name,
                    count: atom.count,
                    links,
                };
                whole.count = n + 1;
            }
        }
        i += 1;
    }
    whole
}

// The place of the context with this number, which is one of the first `count`.
fn context_numbered(contexts: [Context; Sheet::CONTEXT_ROOM], count: usize, number: u16) -> usize
    requires { (count ≤ figure_contexts) × ((j : ℕ) × (j < count) × ((row_at contexts j).number ≡ number)) }
    ensures { (result < count) × ((row_at contexts result).number ≡ number) }
{
    let mut j = 0;
    while j + 1 < count {
        if contexts[j].number == number {
            return j;
        }
        j += 1;
    }
    j
}

// The replacement's own atoms, then for each of its contexts in order those that are given to it; the links where the
// ports of the pattern's context stand make labels one.
fn whole_given<'a>(
    own: Whole,
    contexts: [Context; Sheet::CONTEXT_ROOM],
    count: usize,
    sheet: Sheet,
    pattern: Sheet,
    links_to: &'a [u16],
    given: &'a [u16],
    labels: &mut [u16; PLACES],
) -> Whole
    requires contexts_ranged { ContextsRanged contexts count × (own.count ≤ atom_room) × Own labels.old }
    requires ready { Ready sheet pattern × LinksIn sheet pattern links_to.now × (length given.now ≡ sheet_atom_limit) × Covered pattern contexts count × Narrow pattern }
    ensures { (list : List ℕ) → ((c : NetCell) → c ∈ (net_in pattern).contexts → GivenPart sheet links_to.now given.now list c) → Puts list own (take count contexts) labels.old labels.new result }
{
    let blanks = pattern.contexts;
    let mut whole = own;
    let mut i = 0;
    while i < count {
        let context = contexts[i];
        let links = context.links;
        let n = context.count as usize;
        let j = context_numbered(blanks, pattern.context_count, context.number);
        let blank = blanks[j];
        let ends = blank.links;
        let ports = ports_of(sheet.class_count, links_to, ends, n);
        let mut numbers = [0u16; ROOM];
        let mut numbered = 0;
        whole = with_given(
            whole,
            i + 1,
            &mut numbers,
            &mut numbered,
            sheet,
            given,
            context.number,
        );
        let marked = numbers_of(&mut numbers, &mut numbered, ports, n);
        with_ports(&mut *labels, i + 1, links, n, &marked);
        i += 1;
    }
    whole
}

// The normal form of a replacement filled with what a placing gives, by its own, where its counts are within a sheet's
// limits; else one of them is above its limit.
pub(crate) fn swapped(
    sheet: Sheet,
    pattern: Sheet,
    replacement: Sheet,
    links_to: [u16; Sheet::LINKS],
    given: [u16; Sheet::ATOMS],
) -> Sheet
    requires ready { Ready sheet pattern × LinksIn sheet pattern links_to × (length given ≡ sheet_atom_limit) × Covered pattern replacement.contexts replacement.context_count × Narrow pattern }
    requires by_index { (text : List ℕ) × (replacement ≡ packed_normal (figure_held text)) }
    requires by_index_2 { (list : List ℕ) × ((c : NetCell) → c ∈ (net_in pattern).contexts → GivenPart sheet links_to given list c) }
    ensures { (list text : List ℕ) → ((c : NetCell) → c ∈ (net_in pattern).contexts → GivenPart sheet links_to given list c) → replacement ≡ packed_normal (figure_held text) → first_lacking (list_held list).contexts (figure_held text).contexts ≡ 0 → first_differing list (list_held list).contexts ≡ 0 → FilledIs text list result }
{
    let mut labels = [0u16; PLACES];
    own_labels(&mut labels);
    let own = replacement.atoms;
    let whole = Whole {
        atoms: own,
        count: replacement.atom_count,
    };
    let contexts = replacement.contexts;
    let whole = whole_given(
        whole,
        contexts,
        replacement.context_count,
        sheet,
        pattern,
        &links_to,
        &given,
        &mut labels,
    );
    let marks = replacement.marks;
    let places = replacement.marked;
    numbered_whole(whole, &labels, marks, places, replacement.mark_count)
}
