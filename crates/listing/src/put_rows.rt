// The rows of a filling, one after the other.
ghost use Rattle.std.specs.Prelude.{◌≡◌, List, [], ◌∷◌, ◌++◌, map, ℕ, ◌+◌, ◌*◌, ◌<◌, ◌≤◌, length, take, drop, get_or};
ghost use Rattle.rows.specs.Format.{most_links, field_count, row_width, most_name, most_number};
ghost use Rattle.rows.specs.Limits.{sheet_atom_limit};
ghost use Rattle.rows.specs.Packed.{padded};
ghost use Rattle.writing.specs.RowText.{row_bytes};
ghost use Rattle.numbering.specs.Numbering.{number_room, numbering, with_classes, most_classes};
ghost use Rattle.placing.specs.Net.{cell_links};
ghost use Rattle.network.specs.NetIn.{Fit, atom_at};
ghost use Rattle.listing.specs.Writing.{number_in, cell_if, given_cells, symbols_bytes, ports_bytes};

use numbering::classes::{ROOM, number_class};
use rows::{Atom, Sheet};
use writing::write::put_row;

// An H row or an E row: two numbers.
pub(crate) fn put_pair(out: &mut [u8], at: usize, letter: u8, first: u16, second: u16)
    requires row_width_in_bounds { at + row_width ≤ length out.old }
    requires first_le_most_number { (first ≤ most_number) × (second ≤ most_number) }
    ensures { out.new ≡ take at out.old ++ row_bytes letter (first ∷ second ∷ []) ++ drop (at + row_width) out.old }
{
    let mut nums = [0; Sheet::FIELDS];
    nums[0] = first;
    nums[1] = second;
    put_row(out, at, letter, nums, 2);
}

// The numbers of an S row: a name, the link count, the numbers of the links. A link that has none gets the
// next; whatever else is numbered later, it keeps it.
fn symbol_numbers(
    numbers: &mut [u16; ROOM],
    numbered: &mut usize,
    name: u16,
    count: u16,
    links: [u16; Sheet::MOST_LINKS],
) -> [u16; Sheet::FIELDS]
    requires { (count ≤ most_links) × (numbered.old + count ≤ most_classes) × ((k : ℕ) → k < count → get_or links k 0 < number_room) }
    ensures numbered_after { numbering numbers.new numbered.new ≡ with_classes (numbering numbers.old numbered.old) (take count links) }
    ensures by_index { (later : List ℕ) → result ≡ padded field_count 0 (name ∷ count ∷ map (number_in (with_classes (numbering numbers.new numbered.new) later).numbers) (take count links)) }
{
    let mut nums = [0; Sheet::FIELDS];
    nums[0] = name;
    nums[1] = count;
    for k in 0..count as usize {
        nums[k + 2] = number_class(numbers, numbered, links[k] as usize);
    }
    nums
}

// The S row of an atom, where it is given to this context, at byte `at`; the byte after it.
fn put_symbol(
    numbers: &mut [u16; ROOM],
    numbered: &mut usize,
    atom: Atom,
    given: bool,
    out: &mut [u8],
    at: usize,
) -> usize
    requires name_le_most_name { (atom.name ≤ most_name) × (atom.count ≤ most_links) × (length atom.links ≡ most_links) × ((k : ℕ) → k < atom.count → get_or atom.links k 0 < number_room) }
    requires most_links_bound { (numbered.old + most_links ≤ most_classes) × ((x : ℕ) → get_or numbers.old x 0 ≤ numbered.old) }
    requires row_width_in_bounds { at + length (cell_if given atom) * row_width ≤ length out.old }
    ensures value { result ≡ at + length (cell_if given atom) * row_width }
    ensures numbered_after { numbering numbers.new numbered.new ≡ with_classes (numbering numbers.old numbered.old) (cell_links (cell_if given atom)) }
    ensures by_index { (later : List ℕ) → out.new ≡ take at out.old ++ symbols_bytes (number_in (with_classes (numbering numbers.new numbered.new) later).numbers) (cell_if given atom) ++ drop (at + length (cell_if given atom) * row_width) out.old }
{
    if given {
        let links = atom.links;
        let nums = symbol_numbers(numbers, numbered, atom.name, atom.count, links);
        put_row(out, at, b'S', nums, atom.count as usize + 2);
        return at + Sheet::ROW;
    }
    at
}

// The S rows of the sheet atoms that are given to this context, from byte `at` on; the byte after them.
pub(crate) fn put_symbols(
    numbers: &mut [u16; ROOM],
    numbered: &mut usize,
    sheet: Sheet,
    given: &[u16],
    number: u16,
    out: &mut [u8],
    at: usize,
) -> usize
    requires fit { Fit sheet × (length given.now ≡ sheet_atom_limit) × ((i : ℕ) → i < sheet.atom_count → (atom_at sheet i).name ≤ most_name) }
    requires sheet_atoms_bound { (numbered.old + most_links * sheet_atom_limit ≤ most_classes) × ((x : ℕ) → get_or numbers.old x 0 ≤ numbered.old) }
    requires row_width_in_bounds { at + length (given_cells sheet given.now number) * row_width ≤ length out.old }
    ensures value { result ≡ at + length (given_cells sheet given.now number) * row_width }
    ensures numbered_after { numbering numbers.new numbered.new ≡ with_classes (numbering numbers.old numbered.old) (cell_links (given_cells sheet given.now number)) }
    ensures by_index { (later : List ℕ) → out.new ≡ take at out.old ++ symbols_bytes (number_in (with_classes (numbering numbers.new numbered.new) later).numbers) (given_cells sheet given.now number) ++ drop (at + length (given_cells sheet given.now number) * row_width) out.old }
{
    let mut end = at;
    for i in 0..sheet.atom_count {
        let atom = sheet.atoms[i];
        end = put_symbol(numbers, numbered, atom, given[i] == number, out, end);
    }
    end
}

// An E row for each of the first `count` ports, from byte `at` on; the byte after them.
pub(crate) fn put_ports(
    numbers: &mut [u16; ROOM],
    numbered: &mut usize,
    ports: [u16; Sheet::MOST_LINKS],
    count: usize,
    out: &mut [u8],
    at: usize,
) -> usize
    requires count_le_most_links { (count ≤ most_links) × ((k : ℕ) → k < count → get_or ports k 0 < number_room) }
    requires count_bound { (numbered.old + count ≤ most_classes) × ((x : ℕ) → get_or numbers.old x 0 ≤ numbered.old) }
    requires row_width_in_bounds { at + count * row_width ≤ length out.old }
    ensures value { result ≡ at + count * row_width }
    ensures numbered_after { numbering numbers.new numbered.new ≡ with_classes (numbering numbers.old numbered.old) (take count ports) }
    ensures out_after { out.new ≡ take at out.old ++ ports_bytes (number_in numbers.new) 1 (take count ports) ++ drop (at + count * row_width) out.old }
{
    for k in 0..count {
        let x = number_class(numbers, numbered, ports[k] as usize);
        put_pair(out, at + k * Sheet::ROW, b'E', x, k as u16 + 1);
    }
    at + count * Sheet::ROW
}
