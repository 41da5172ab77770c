// Which link classes of a figure and of the fillings put in are one: class n of part p has place
// p * PART + n, part 0 being the figure and part i + 1 the filling put for context i; two places have
// the same label exactly when they are one.
ghost use Rattle.std.specs.Prelude.{◌≡◌, ℕ, ◌+◌, ◌*◌, ◌≤◌, ◌<◌, length, take, get_or};
ghost use Rattle.rows.specs.Format.{most_links};
ghost use Rattle.rows.specs.Limits.{figure_contexts};
ghost use Rattle.filling.specs.Parts.{part_room, places};
ghost use Rattle.filling.specs.Glued.{Own, FreshFrom, joined_at, joined_all, port_pairs};

use rows::Sheet;

// Room for the classes of one part, which are counted from 1.
pub(crate) const PART: usize = Sheet::LINK_ROOM;

pub const PLACES: usize = (Sheet::FIGURE_CONTEXTS + 1) * PART;

// Gives each place a label of its own.
pub fn own_labels(labels: &mut [u16; PLACES])
    requires { length labels.old ≡ places }
    ensures { Own labels.new }
{
    let mut k = 0;
    while k < PLACES {
        labels[k] = k as u16;
        k += 1;
    }
}

// Makes the labels of two places one, a place of the figure and one of a filling. Only the first n places can have
// them, and a filling's place that still has its own is alone with it.
fn merged(labels: &mut [u16; PLACES], n: usize, a: usize, b: usize)
    requires { (a < part_room) × (b < n) × (n ≤ places) × FreshFrom n labels.old × (part_room ≤ b) }
    ensures { labels.new ≡ joined_at labels.old (a, b) }
{
    let from = labels[b];
    let to = labels[a];
    if from as usize == b {
        labels[b] = to;
        return;
    }
    let mut k = 0;
    while k < n {
        let mut label = labels[k];
        if label == from {
            label = to;
        }
        labels[k] = label;
        k += 1;
    }
}

// Mark i of the filling that is part p is link i of its context. The parts after p are not joined yet.
pub fn with_ports(
    labels: &mut [u16; PLACES],
    p: usize,
    links: [u16; Sheet::MOST_LINKS],
    count: usize,
    marked: &[u16],
)
    requires p_le_figure_contexts { (p ≤ figure_contexts) × (count ≤ most_links) × FreshFrom ((p + 1) * part_room) labels.old × (1 ≤ p) × (count ≤ length marked.now) }
    requires by_index { (k : ℕ) → (get_or links k 0 < part_room) × (get_or marked.now k 0 < part_room) }
    ensures labels_after { labels.new ≡ joined_all labels.old (port_pairs p (take count links) (take count marked.now)) }
    ensures fresh_from { FreshFrom ((p + 1) * part_room) labels.new }
{
    let mut k = 0;
    while k < count {
        merged(
            &mut *labels,
            (p + 1) * PART,
            links[k] as usize,
            p * PART + marked[k] as usize,
        );
        k += 1;
    }
}
