// The text of a normal form: its rows, one after the other.
ghost use Rattle.std.specs.Prelude.{◌≡◌, [], ◌∷◌, ◌++◌, ◌+◌, ◌*◌, ◌≤◌, length, take, drop};
ghost use Rattle.rows.specs.Format.{row_width, most_number};
ghost use Rattle.writing.specs.RowText.{row_bytes};
ghost use Rattle.rows.specs.Limits.{sheet_atom_limit, figure_contexts, sheet_marks};
ghost use Rattle.normalising.specs.NormalRows.{rows_to, linked_row, atom_row_in, context_row_in, mark_row_in, normal_rows, Narrow, AtomsNarrow, ContextsNarrow, MarksNarrow, Writable};

use rows::{Atom, Context, Sheet};
use writing::write::put_row;

// The numbers of a row with links: a name or a number, the link count, the links.
fn row_numbers(first: u16, count: u16, links: [u16; Sheet::MOST_LINKS]) -> [u16; Sheet::FIELDS]
    ensures { result ≡ first ∷ count ∷ links }
{
    let mut nums = [0; Sheet::FIELDS];
    nums[0] = first;
    nums[1] = count;
    let mut k = 0;
    while k < Sheet::MOST_LINKS {
        nums[k + 2] = links[k];
        k += 1;
    }
    nums
}

// An S row or a B row, from byte `at` on.
fn put_linked(
    out: &mut [u8],
    at: usize,
    letter: u8,
    first: u16,
    count: u16,
    links: [u16; Sheet::MOST_LINKS],
)
    requires row_width_in_bounds { at + row_width ≤ length out.old }
    requires narrow { Narrow first count links }
    ensures { out.new ≡ take at out.old ++ linked_row letter first count links ++ drop (at + row_width) out.old }
{
    let nums = row_numbers(first, count, links);
    put_row(out, at, letter, nums, count as usize + 2);
}

// The S rows, from byte `at` on; the byte after them.
fn put_atoms(atoms: [Atom; Sheet::ATOM_ROOM], count: usize, out: &mut [u8], at: usize) -> usize
    requires count_le_sheet_atoms { (count ≤ sheet_atom_limit) × AtomsNarrow atoms count }
    requires row_width_in_bounds { at + count * row_width ≤ length out.old }
    ensures value { result ≡ at + count * row_width }
    ensures out_after { out.new ≡ take at out.old ++ rows_to (atom_row_in atoms) count ++ drop (at + count * row_width) out.old }
{
    let mut k = 0;
    while k < count {
        let atom = atoms[k];
        let links = atom.links;
        put_linked(out, at + k * Sheet::ROW, b'S', atom.name, atom.count, links);
        k += 1;
    }
    at + k * Sheet::ROW
}

// The B rows, from byte `at` on; the byte after them.
fn put_contexts(
    contexts: [Context; Sheet::CONTEXT_ROOM],
    count: usize,
    out: &mut [u8],
    at: usize,
) -> usize
    requires count_le_figure_contexts { (count ≤ figure_contexts) × ContextsNarrow contexts count }
    requires row_width_in_bounds { at + count * row_width ≤ length out.old }
    ensures value { result ≡ at + count * row_width }
    ensures out_after { out.new ≡ take at out.old ++ rows_to (context_row_in contexts) count ++ drop (at + count * row_width) out.old }
{
    let mut k = 0;
    while k < count {
        let context = contexts[k];
        let links = context.links;
        put_linked(
            out,
            at + k * Sheet::ROW,
            b'B',
            context.number,
            context.count,
            links,
        );
        k += 1;
    }
    at + k * Sheet::ROW
}

// An E row, from byte `at` on.
fn put_mark(out: &mut [u8], at: usize, link: u16, mark: u16)
    requires row_width_in_bounds { at + row_width ≤ length out.old }
    requires link_le_most_number { (link ≤ most_number) × (mark ≤ most_number) }
    ensures { out.new ≡ take at out.old ++ row_bytes 69 (link ∷ mark ∷ []) ++ drop (at + row_width) out.old }
{
    let mut nums = [0; Sheet::FIELDS];
    nums[0] = link;
    nums[1] = mark;
    put_row(out, at, b'E', nums, 2);
}

// The E rows, from byte `at` on; the byte after them.
fn put_marks(
    marked: [u16; Sheet::MARK_ROOM],
    marks: [u16; Sheet::MARK_ROOM],
    count: usize,
    out: &mut [u8],
    at: usize,
) -> usize
    requires count_le_sheet_marks { (count ≤ sheet_marks) × MarksNarrow marked marks count }
    requires row_width_in_bounds { at + count * row_width ≤ length out.old }
    ensures value { result ≡ at + count * row_width }
    ensures out_after { out.new ≡ take at out.old ++ rows_to (mark_row_in marked marks) count ++ drop (at + count * row_width) out.old }
{
    let mut k = 0;
    while k < count {
        put_mark(out, at + k * Sheet::ROW, marked[k], marks[k]);
        k += 1;
    }
    at + k * Sheet::ROW
}

// All rows from byte 0 on, the S rows first and the E rows last; the number of bytes.
pub fn write_normal(normal: Sheet, out: &mut [u8]) -> usize
    requires writable { Writable normal }
    requires row_width_in_bounds { (normal.atom_count + normal.context_count + normal.mark_count) * row_width ≤ length out.old }
    ensures value { result ≡ length (normal_rows normal) }
    ensures out_after { out.new ≡ normal_rows normal ++ drop (length (normal_rows normal)) out.old }
{
    let atoms = normal.atoms;
    let contexts = normal.contexts;
    let marked = normal.marked;
    let marks = normal.marks;
    let end = put_atoms(atoms, normal.atom_count, out, 0);
    let end = put_contexts(contexts, normal.context_count, out, end);
    put_marks(marked, marks, normal.mark_count, out, end)
}
