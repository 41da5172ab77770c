// The numbers of links, in the order in which they first appear.
ghost use Rattle.std.specs.Prelude.{◌≡◌, List, map, ℕ, ◌+◌, ◌<◌, ◌≤◌, take, get_or};
ghost use Rattle.rows.specs.Format.{most_links};
ghost use Rattle.rows.specs.Packed.{padded};
ghost use Rattle.numbering.specs.Numbering.{number_room, numbering, with_classes, most_classes};
ghost use Rattle.listing.specs.Writing.{number_in};

use numbering::classes::{ROOM, number_class};
use rows::Sheet;

// The numbers of the first `count` links. A link that has none gets the next; whatever else is numbered later, it
// keeps it.
pub fn numbers_of(
    numbers: &mut [u16; ROOM],
    numbered: &mut usize,
    links: [u16; Sheet::MOST_LINKS],
    count: usize,
) -> [u16; Sheet::MOST_LINKS]
    requires { (count ≤ most_links) × (numbered.old + count ≤ most_classes) × ((k : ℕ) → k < count → get_or links k 0 < number_room) }
    ensures numbered_after { numbering numbers.new numbered.new ≡ with_classes (numbering numbers.old numbered.old) (take count links) }
    ensures by_index { (later : List ℕ) → result ≡ padded most_links 0 (map (number_in (with_classes (numbering numbers.new numbered.new) later).numbers) (take count links)) }
{
    let mut more = [0u16; Sheet::MOST_LINKS];
    for k in 0..count {
        more[k] = number_class(numbers, numbered, links[k] as usize);
    }
    more
}
