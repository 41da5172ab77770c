// One filling of a list, and the refusals over whole texts.
ghost use Rattle.std.specs.Prelude.{◌≡◌, List, ℕ, ◌+◌, ◌<◌, ◌≤◌, length, take};
ghost use Rattle.rows.specs.Format.{most_links, context_bound};
ghost use Rattle.rows.specs.Limits.{sheet_marks, mark_room};
ghost use Rattle.sheet.specs.Filling.{HeadsRead};
ghost use Rattle.placing.specs.Smallest.{same_list, numbers_to};
ghost use Rattle.filling.specs.Fill.{first_differing};
ghost use Rattle.filling.specs.Parts.{part_read, part_marks, exact_to, Exacts, first_unported, Counted};

use reading::read::{Reading, read_list};
use rows::{Context, Sheet};
use sheet::part::part_for;

// The filling of this number, read by itself: its normal form, with its head.
pub(crate) fn part_of(
    list: &[u8],
    heads: [Context; Sheet::CONTEXT_ROOM],
    count: usize,
    number: u16,
) -> Reading
    requires { HeadsRead list.now heads count }
    ensures { result.normal ≡ part_read list.now number }
{
    read_list(part_for(list, heads, count, number))
}

// Whether the first `count` marks, which ascend, are exactly 1 to n.
fn marks_exact(marks: &[u16; Sheet::MARK_ROOM], count: usize, n: u16) -> bool
    requires { (count ≤ sheet_marks) × (length marks.now ≡ mark_room) }
    ensures { result ≡ same_list (take count marks.now) (numbers_to n) }
{
    if count != n as usize {
        return false;
    }
    let mut k: u16 = 0;
    while k < n {
        if marks[k as usize] != k + 1 {
            return false;
        }
        k += 1;
    }
    true
}

// Notes of a number that the marks of its filling, which are these, are exactly its ports.
pub(crate) fn note_exact(
    exact: &mut [u16; Sheet::NUMBERS],
    marks: &[u16; Sheet::MARK_ROOM],
    count: usize,
    number: u16,
    n: u16,
)
    requires { (count ≤ sheet_marks) × (length marks.now ≡ mark_room) × (number < context_bound) × (n ≤ most_links) }
    ensures { (list : List ℕ) → take count marks.now ≡ part_marks list number → Exacts list exact.old → Exacts list exact.new }
{
    if marks_exact(marks, count, n) {
        exact[number as usize] = n + 1;
    }
}

// Whether the marks of the filling of this number are exactly 1 to n; one that is noted is not read.
fn is_exact(
    list: &[u8],
    heads: [Context; Sheet::CONTEXT_ROOM],
    count: usize,
    exact: &[u16; Sheet::NUMBERS],
    number: u16,
    n: u16,
) -> bool
    requires { HeadsRead list.now heads count × Exacts list.now exact.now × (number < context_bound) × (n ≤ most_links) }
    ensures { result ≡ exact_to list.now number n }
{
    if exact[number as usize] == n + 1 {
        return true;
    }
    let part = part_of(list, heads, count, number);
    marks_exact(&part.normal.marks, part.normal.mark_count, n)
}

// 8 over whole texts: the row of the first of a figure's contexts without a filling of its number and count, by
// the table of the list's port counts, or 0.
pub fn first_lacking(
    contexts: [Context; Sheet::CONTEXT_ROOM],
    count: usize,
    ports: [u16; Sheet::NUMBERS],
) -> usize
    requires { Counted contexts count }
    ensures { result ≡ first_unported ports (take count contexts) }
{
    let mut i = 0;
    while i < count {
        let context = contexts[i];
        if ports[context.number as usize] != context.count + 1 {
            return context.row as usize;
        }
        i += 1;
    }
    0
}

// 9: the row of the first head whose filling has other marks than its ports, or 0.
pub fn first_differing(
    heads: [Context; Sheet::CONTEXT_ROOM],
    count: usize,
    list: &[u8],
    exact: &[u16; Sheet::NUMBERS],
) -> usize
    requires { HeadsRead list.now heads count × Exacts list.now exact.now }
    ensures { result ≡ first_differing list.now (take count heads) }
{
    let mut i = 0;
    while i < count {
        let head = heads[i];
        if !is_exact(list, heads, count, exact, head.number, head.count) {
            return head.row as usize;
        }
        i += 1;
    }
    0
}
