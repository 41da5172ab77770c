// Numbers for links or classes of links, in the order in which they first appear: a table that has for each
// label its number, or 0, and the count of the numbers given.
ghost use Rattle.std.specs.Prelude.{◌≡◌, List, ℕ, ◌+◌, ◌<◌, ◌≤◌, get_or};
ghost use Rattle.rows.specs.Format.{most_links};
ghost use Rattle.numbering.specs.Numbering.{Labels, numbering, label_in, number_room, with_class, with_classes, link_labels, links_by, most_classes};

use crate::labels::label_of;
use linking::place::HINTS;
use rows::Sheet;

// The links of a sheet, and one for each figure link that goes to none; 0 is no link. The classes of a
// text need fewer.
pub const ROOM: usize = 2 * Sheet::LINKS + 1;

// The number of a class; one that has none gets the next.
pub fn number_class(numbers: &mut [u16; ROOM], count: &mut usize, label: usize) -> u16
    requires { (label < number_room) × (count.old < most_classes) }
    ensures count_after { numbering numbers.new count.new ≡ with_class (numbering numbers.old count.old) label }
    ensures value { result ≡ get_or numbers.new label 0 }
{
    if numbers[label] == 0 {
        *count += 1;
        numbers[label] = *count as u16;
    }
    numbers[label]
}

// The numbers of the classes of the first `port_count` links, in order: whatever else is numbered later, they
// keep them.
pub(crate) fn number_links<'a>(
    numbers: &mut [u16; ROOM],
    count: &mut usize,
    links: &'a [u16],
    classes: &'a [u16],
    n: usize,
    ports: [u16; Sheet::MOST_LINKS],
    port_count: usize,
    hints: &'a [u8; HINTS],
) -> [u16; Sheet::MOST_LINKS]
    requires { Labels hints.now links.now classes.now n × (port_count ≤ most_links) × (count.old + port_count ≤ most_classes) }
    ensures count_after { numbering numbers.new count.new ≡ with_classes (numbering numbers.old count.old) (link_labels (label_in links.now classes.now n) port_count ports) }
    ensures by_index { (later : List ℕ) → result ≡ links_by (with_classes (numbering numbers.new count.new) later).numbers (label_in links.now classes.now n) port_count ports }
{
    let mut numbered = [0u16; Sheet::MOST_LINKS];
    let mut k = 0;
    while k < port_count {
        let label = label_of(links, classes, n, ports[k], hints);
        numbered[k] = number_class(numbers, count, label);
        k += 1;
    }
    numbered
}
