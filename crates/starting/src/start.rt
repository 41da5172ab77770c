// The sets before anything is chosen.
ghost use Rattle.std.specs.Prelude.{◌≡◌, true, [], ℕ, ◌+◌, ◌*◌, ◌-◌, ◌<◌, ◌≤◌, length, get_or};
ghost use Rattle.rows.specs.Limits.{sheet_atom_limit, sheet_link_limit};
ghost use Rattle.rows.specs.declared.Sheet.{Sheet as NormalForm};
ghost use Rattle.placing.specs.Net.{Range};
ghost use Rattle.network.specs.NetIn.{net_in};
ghost use Rattle.candidates.specs.Frames.{whole};
ghost use Rattle.candidates.specs.Laid.{LaidOut};
ghost use Rattle.candidates.specs.Marks.{MarkLinks, MarksIn};
ghost use Rattle.candidates.specs.Sets.{Keeps};
ghost use Rattle.candidates.specs.Words.{InPair};
ghost use Rattle.candidates.specs.Tables.{LinkIn, MayAtom, MayLink, LinksStay};
ghost use Rattle.starting.specs.Steps.{Enough, MarksOn, MarksBack};

use crate::alike::start_atoms;
use crate::profile::{closed_links, link_of, place_counts};
use candidates::frame::Frame;
use candidates::pairs::{common, pair_at, set_pair, with, without};
use candidates::{LAID, LINK_SETS};
use rows::Sheet;

// Whether a sheet link has places enough for a figure link: as many as wanted, or more if it is not closed.
fn enough(closed: u8, wanted: u16, there: u16) -> bool
    ensures { Enough closed wanted there → result ≡ true }
{
    if there < wanted {
        return false;
    }
    if closed == 1 {
        return there == wanted;
    }
    true
}

// The sheet links, of the first n, that have places enough for a figure link.
fn enough_links(closed: u8, wanted: u16, counts: &[u16; Sheet::LINKS], n: usize) -> [u64; 2]
    requires { n ≤ sheet_link_limit }
    ensures { (y : ℕ) → y < n → Enough closed wanted (get_or counts.now y 0) → InPair result y }
{
    let mut pair = [0u64; 2];
    for y in 0..n {
        if enough(closed, wanted, counts[y]) {
            let more = with(pair, y);
            pair = more;
        }
    }
    pair
}

// The first m figure links to those of the first n sheet links that have places enough.
fn start_places<'a>(
    m: usize,
    n: usize,
    closed: &[u8; Sheet::LINKS],
    wanted: &'a [u16; Sheet::LINKS],
    counts: &'a [u16; Sheet::LINKS],
    links: &mut [u64; LINK_SETS],
)
    requires { (m ≤ sheet_link_limit) × (n ≤ sheet_link_limit) × (length links.old ≡ sheet_link_limit * 2) }
    ensures { (x y : ℕ) → x < m → y < n → Enough (get_or closed.now x 0) (get_or wanted.now x 0) (get_or counts.now y 0) → LinkIn links.new x y }
{
    for x in 0..m {
        let pair = enough_links(closed[x], wanted[x], counts, n);
        set_pair(links, x, pair);
    }
}

// Figure link x to sheet link y alone; to none where y is 0.
fn only_link(x: usize, y: usize, links: &mut [u64; LINK_SETS])
    requires { Range sheet_link_limit x × (y ≤ sheet_link_limit) }
    ensures { LinksStay links.old links.new (λ z v. z ≡ x - 1 → v + 1 ≡ y) }
{
    let mut only = [0u64; 2];
    if y != 0 {
        let more = with(only, y - 1);
        only = more;
    }
    let before = pair_at(links, x - 1);
    set_pair(links, x - 1, common(before, only));
}

// Marked figure links to the sheet links with their marks: the sheet has n marks, the figure m.
fn start_marks<'a>(
    marks: &'a [u16; Sheet::MARK_ROOM],
    marked: &'a [u16; Sheet::MARK_ROOM],
    n: usize,
    figure_marks: &'a [u16; Sheet::MARK_ROOM],
    figure_marked: &'a [u16; Sheet::MARK_ROOM],
    m: usize,
    links: &mut [u64; LINK_SETS],
)
    requires { MarkLinks marked.now n × MarkLinks figure_marked.now m }
    ensures { (sheet figure : NormalForm) → MarksIn sheet marks.now marked.now n → MarksIn figure figure_marks.now figure_marked.now m → LinksStay links.old links.new (MarksOn sheet figure) }
{
    for p in 0..m {
        let x = figure_marked[p] as usize;
        let y = link_of(marks, marked, n, figure_marks[p]);
        only_link(x, y, links);
    }
}

// Sheet link y for figure link x alone, of those of the first c that are closed.
fn only_closed(
    x: usize,
    y: usize,
    c: usize,
    closed: &[u8; Sheet::LINKS],
    links: &mut [u64; LINK_SETS],
)
    requires { Range sheet_link_limit y × (c ≤ sheet_link_limit) }
    ensures { LinksStay links.old links.new (λ z v. v ≡ y - 1 → get_or closed.now z 0 ≡ 1 → z + 1 ≡ x) }
{
    let only = with([0u64; 2], y - 1);
    for z in 0..c {
        if closed[z] == 1 {
            if z + 1 != x {
                let before = pair_at(links, z);
                set_pair(links, z, without(before, only));
            }
        }
    }
}

// Closed figure links, of the first c, to sheet links with no other marks: the sheet has n marks, the figure m.
fn start_closed<'a>(
    marks: &'a [u16; Sheet::MARK_ROOM],
    marked: &'a [u16; Sheet::MARK_ROOM],
    n: usize,
    figure_marks: &'a [u16; Sheet::MARK_ROOM],
    figure_marked: &'a [u16; Sheet::MARK_ROOM],
    m: usize,
    c: usize,
    closed: &[u8; Sheet::LINKS],
    links: &mut [u64; LINK_SETS],
)
    requires { MarkLinks marked.now n × MarkLinks figure_marked.now m × (c ≤ sheet_link_limit) }
    ensures { (sheet figure : NormalForm) → MarksIn sheet marks.now marked.now n → MarksIn figure figure_marks.now figure_marked.now m → LinksStay links.old links.new (λ x y. get_or closed.now x 0 ≡ 1 → MarksBack sheet figure x y) }
{
    for q in 0..n {
        let y = marked[q] as usize;
        let x = link_of(figure_marks, figure_marked, m, marks[q]);
        only_closed(x, y, c, closed, links);
    }
}

// Sets that every good placing stays in.
pub(crate) fn start<'a>(
    sheet: Frame,
    figure: Frame,
    laid: &'a [u16; LAID],
    parts: &'a [u16; LAID],
    atoms: &mut [u64; Sheet::ATOMS],
    links: &mut [u64; LINK_SETS],
)
    requires { LaidOut (whole sheet laid.now) laid.now sheet.atom_count × LaidOut (whole figure parts.now) parts.now figure.atom_count × (length atoms.old ≡ sheet_atom_limit) × (length links.old ≡ sheet_link_limit * 2) }
    ensures { Keeps (net_in (whole sheet laid.now)) (net_in (whole figure parts.now)) [] (MayAtom atoms.new) (MayLink links.new) }
{
    start_atoms(laid, sheet.atom_count, parts, figure.atom_count, atoms);
    let mut closed = [1u8; Sheet::LINKS];
    closed_links(figure.contexts, figure.context_count, &mut closed);
    let mut wanted = [0u16; Sheet::LINKS];
    place_counts(parts, figure.atom_count, &mut wanted);
    let mut counts = [0u16; Sheet::LINKS];
    place_counts(laid, sheet.atom_count, &mut counts);
    start_places(
        figure.class_count,
        sheet.class_count,
        &closed,
        &wanted,
        &counts,
        links,
    );
    start_marks(
        &sheet.marks,
        &sheet.marked,
        sheet.mark_count,
        &figure.marks,
        &figure.marked,
        figure.mark_count,
        links,
    );
    start_closed(
        &sheet.marks,
        &sheet.marked,
        sheet.mark_count,
        &figure.marks,
        &figure.marked,
        figure.mark_count,
        figure.class_count,
        &closed,
        links,
    );
}
