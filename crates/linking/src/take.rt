// The links and the mark of a row, taken into what a text holds.
ghost use Rattle.std.specs.Prelude.{◌≡◌, false, ◌++◌, map, ℕ, ◌+◌, ◌-◌, ◌<◌, ◌≤◌, eqb, length, take, drop, get_or};
ghost use Rattle.rows.specs.Pick.{pick};
ghost use Rattle.rows.specs.Format.{field_count, most_links, edge_letter, head_letter};
ghost use Rattle.rows.specs.Limits.{sheet_marks, filling_links, link_room, mark_room};
ghost use Rattle.rows.specs.Held.{Wiring, index_of, relabelled, with_link, with_links, with_fusion, with_mark};
ghost use Rattle.linking.specs.Steps.{gone, cleared, Hinted, Wired, Linked, Relinks, Marked, Tied, first_link_in, link_count_in, linked_by, marked_by};
ghost use Rattle.rows.specs.Entry.{Ranged};

use crate::place::{HINTS, count_with, place_link};
use rows::Sheet;
use rows::row::{Row, Rule, rules_of};

// Whether x is among the eight numbers from place i on. The loop has no way out, so that all are compared at once.
fn among_eight(s: &[u16], i: usize, x: u16) -> bool
    requires { i + 8 ≤ length s.now }
    ensures { result ≡ false → (k : ℕ) → k < 8 → ¬ (get_or s.now (i + k) 0 ≡ x) }
{
    let mut found = false;
    let mut k = 0;
    while k < 8 {
        if s[i + k] == x {
            found = true;
        }
        k += 1;
    }
    found
}

// A place before which x is not among the first n numbers: eight that lack it are passed over at once.
fn skipped(s: &[u16], n: usize, x: u16) -> usize
    requires { n ≤ length s.now }
    ensures { (result ≤ n) × (index_of x (take n s.now) ≡ result + index_of x (drop result (take n s.now))) }
{
    let mut i = 0;
    while 8 <= n - i {
        if among_eight(s, i, x) {
            return i;
        }
        i += 8;
    }
    i
}

// The place of x among the first n numbers, or n where it is not there.
pub fn index_of(s: &[u16], n: usize, x: u16) -> usize
    requires { n ≤ length s.now }
    ensures { result ≡ index_of x (take n s.now) }
{
    let mut i = skipped(s, n, x);
    while i < n {
        if s[i] == x {
            return i;
        }
        i += 1;
    }
    n
}

// In the first n labels every `from` made `to`.
pub(crate) fn relabel(classes: &mut [u16], n: usize, from: u16, to: u16)
    requires { n ≤ length classes.old }
    ensures { classes.new ≡ map (relabelled from to) (take n classes.old) ++ drop n classes.old }
{
    let mut i = 0;
    while i < n {
        let mut label = classes[i];
        if label == from {
            label = to;
        }
        classes[i] = label;
        i += 1;
    }
}

// The first n numbers made 0.
pub(crate) fn clear(s: &mut [u16], n: usize)
    requires { n ≤ length s.old }
    ensures { s.new ≡ cleared n s.old }
{
    let mut i = 0;
    while i < n {
        s[i] = 0;
        i += 1;
    }
}

// The classes of the links at places i and j made one, where they are two.
pub(crate) fn merge(classes: &mut [u16], n: usize, i: usize, j: usize)
    requires { (n ≤ length classes.old) × (i < length classes.old) × (j < length classes.old) }
    ensures { classes.new ≡ map (relabelled (get_or classes.old j 0) (get_or classes.old i 0)) (take n classes.old) ++ drop n classes.old }
{
    let from = classes[j];
    let to = classes[i];
    if from == to {
        return;
    }
    relabel(classes, n, from, to);
}

// A link number that is new starts a class of its own. The count of links with it is returned.
pub(crate) fn add_link(
    links: &mut [u16],
    classes: &mut [u16],
    n: usize,
    x: u16,
    hints: &mut [u8; HINTS],
) -> usize
    requires { (n < link_room) × (length links.old ≡ link_room) × (length classes.old ≡ link_room) × Hinted hints.old links.old n }
    ensures { (result ≤ n + 1) × Relinks links.old classes.old n links.new classes.new result (λ w. with_link w x) × Hinted hints.new links.new result }
{
    let p = place_link(links, classes, n, x, hints);
    count_with(n, p)
}

// The numbers of `count` fields from field `from` on, as links.
pub(crate) fn add_links(
    links: &mut [u16],
    classes: &mut [u16],
    n: usize,
    nums: [u16; Sheet::FIELDS],
    from: usize,
    count: usize,
    hints: &mut [u8; HINTS],
) -> usize
    requires { (n ≤ filling_links) × (count ≤ most_links) × (from + count ≤ field_count) × (length links.old ≡ link_room) × (length classes.old ≡ link_room) × Hinted hints.old links.old n }
    ensures { (result ≤ n + count) × Relinks links.old classes.old n links.new classes.new result (λ w. with_links w (take count (drop from nums))) × Hinted hints.new links.new result }
{
    let mut m = n;
    let mut k = 0;
    while k < count {
        m = add_link(links, classes, m, nums[from + k], hints);
        k += 1;
    }
    m
}

// Two links, which are made one point. The count of links with them is returned.
pub(crate) fn add_fusion(
    links: &mut [u16],
    classes: &mut [u16],
    n: usize,
    a: u16,
    b: u16,
    hints: &mut [u8; HINTS],
) -> usize
    requires { (n ≤ filling_links) × (length links.old ≡ link_room) × (length classes.old ≡ link_room) × Hinted hints.old links.old n }
    ensures { Relinks links.old classes.old n links.new classes.new result (λ w. with_fusion (with_link (with_link w a) b) a b) × Hinted hints.new links.new result }
{
    let i = place_link(links, classes, n, a, hints);
    let m = count_with(n, i);
    let j = place_link(links, classes, m, b, hints);
    let count = count_with(m, j);
    merge(classes, count, i, j);
    count
}

// The first field that holds a link, by the rules of a letter; `FIELDS` where none does.
pub(crate) fn first_link(own: [Rule; Sheet::FIELDS]) -> usize
    ensures { result ≡ first_link_in own }
{
    let mut f = 0;
    while f < Sheet::FIELDS {
        if own[f].link {
            return f;
        }
        f += 1;
    }
    f
}

// How many links a row with this count has, by the rules of its letter.
pub(crate) fn link_count(own: [Rule; Sheet::FIELDS], count: u16) -> usize
    ensures { result ≡ link_count_in own count }
{
    let mut links = 0;
    let mut f = 0;
    while f < Sheet::FIELDS {
        let rule = own[f];
        if rule.link {
            if rule.counted {
                return links + count as usize;
            }
            links += 1;
        }
        f += 1;
    }
    links
}

// How many of n links or marks are gone with a row of this letter: a filling begins with none.
pub(crate) fn gone_by(letter: usize, n: usize) -> usize
    ensures { result ≡ gone letter n }
{
    if letter == Row::HEAD {
        return n;
    }
    0
}

// Those of n numbers in both arrays that are gone, made 0. How many are left is returned.
pub(crate) fn clear_gone(a: &mut [u16], b: &mut [u16], n: usize, letter: usize) -> usize
    requires { (n ≤ length a.old) × (n ≤ length b.old) }
    ensures { (result ≡ n - gone letter n) × (a.new ≡ cleared (gone letter n) a.old) × (b.new ≡ cleared (gone letter n) b.old) }
{
    let old = gone_by(letter, n);
    clear(a, old);
    clear(b, old);
    n - old
}

// The links of a row, by its letter.
pub fn add_row_links(
    links: &mut [u16],
    classes: &mut [u16],
    n: usize,
    row: Row,
    hints: &mut [u8; HINTS],
) -> usize
    requires { (n ≤ filling_links) × Ranged row × (length links.old ≡ link_room) × (length classes.old ≡ link_room) × Hinted hints.old links.old n }
    ensures { (row.letter ≡ edge_letter → result ≤ n + 1) × Relinks links.old classes.old n links.new classes.new result (linked_by row) × Hinted hints.new links.new result }
{
    let nums = row.nums;
    let letter = row.letter;
    let kept = clear_gone(links, classes, n, letter);
    let own = rules_of(letter);
    let from = first_link(own);
    if letter == Row::FUSION {
        return add_fusion(links, classes, kept, nums[from], nums[from + 1], hints);
    }
    let count = link_count(own, nums[1]);
    add_links(links, classes, kept, nums, from, count, hints)
}

// A mark on a link that is there. The count of marks with it is returned.
pub(crate) fn add_mark(
    links: &[u16],
    classes: &mut [u16],
    marks: &mut [u16],
    marked: &mut [u16],
    n: usize,
    m: usize,
    a: u16,
    mark: u16,
) -> usize
    requires { (n < link_room) × (m ≤ sheet_marks) × ((p : ℕ) → get_or marked.old p 0 < filling_links) × (length links.now ≡ link_room) × (length classes.old ≡ link_room) × (length marks.old ≡ mark_room) × (length marked.old ≡ mark_room) }
    ensures { (w : Wiring) → Wired w → Tied w links.now classes.old n marks.old marked.old m → Tied (with_mark w a mark) links.now classes.new n marks.new marked.new result }
{
    let i = index_of(links, n, a);
    let p = index_of(marks, m, mark);
    if p < m {
        let place = marked[p] as usize;
        merge(classes, n, place, i);
        return m;
    }
    marks[m] = mark;
    marked[m] = i as u16;
    m + 1
}

// The mark of a row, by its letter, on one of the links that are there with the row. Before a head
// the marks are those of another filling.
pub fn add_row_mark(
    links: &[u16],
    classes: &mut [u16],
    marks: &mut [u16],
    marked: &mut [u16],
    n: usize,
    m: usize,
    row: Row,
) -> usize
    requires { (row.letter ≡ edge_letter → n < link_room) × (m ≤ sheet_marks) × ((p : ℕ) → get_or marked.old p 0 < filling_links) × (length links.now ≡ link_room) × (length classes.old ≡ link_room) × (length marks.old ≡ mark_room) × (length marked.old ≡ mark_room) }
    ensures { (w v : Wiring) → Wired w → Wired v → Linked w links.now classes.old n → Marked (pick (eqb row.letter head_letter) v w) marks.old marked.old m → Tied (marked_by row w) links.now classes.new n marks.new marked.new result }
{
    let nums = row.nums;
    let letter = row.letter;
    let kept = clear_gone(marks, marked, m, letter);
    if letter != Row::EDGE {
        return kept;
    }
    let from = first_link(rules_of(letter));
    add_mark(links, classes, marks, marked, n, kept, nums[from], nums[1])
}
