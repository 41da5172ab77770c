// The label of a class, looked up by a link or a mark.
ghost use Rattle.std.specs.Prelude.{◌≡◌};
ghost use Rattle.numbering.specs.Numbering.{Labels, MarkLabels, label_in, mark_label_in};

use linking::place::{HINTS, place_of};
use linking::take::index_of;

// The label of a link's class.
pub(crate) fn label_of(
    links: &[u16],
    classes: &[u16],
    n: usize,
    x: u16,
    hints: &[u8; HINTS],
) -> usize
    requires { Labels hints.now links.now classes.now n }
    ensures { result ≡ label_in links.now classes.now n x }
{
    let i = place_of(links, n, x, hints);
    classes[i] as usize
}

// The label of a mark's class.
pub(crate) fn mark_label<'a>(
    marks: &'a [u16],
    marked: &'a [u16],
    classes: &'a [u16],
    n: usize,
    m: u16,
) -> usize
    requires { MarkLabels marks.now marked.now classes.now n }
    ensures { result ≡ mark_label_in marks.now marked.now classes.now n m }
{
    let p = index_of(marks, n, m);
    let i = marked[p] as usize;
    classes[i] as usize
}
