// The place of a link among those of a text, found or given.
ghost use Rattle.std.specs.Prelude.{◌≡◌, ◌+◌, ◌<◌, ◌≤◌, length};
ghost use Rattle.rows.specs.Limits.{link_room};
ghost use Rattle.linking.specs.Steps.{count_with, Places, hint_count, hint_at, Hinted, place_by};

use crate::take::index_of;

// How many hints there are. A hint is 1 more than the place where a link was last found or put; links
// whose numbers leave the same rest share one, so it may be another's. It is 0 where none was.
pub const HINTS: usize = 256;

// Where the hint of link x stands.
fn hint_at(x: u16) -> usize
    ensures { (result < hint_count) × (result ≡ hint_at x) }
{
    x as usize % HINTS
}

fn wide(b: u8) -> usize
    ensures { result ≡ b }
{
    b as usize
}

// The place of x among the first n links, or n where it is not there or there are not so many: where no link stands
// twice and none has the hint 0. A link with the hint 0 is new; else the place that the hint says is tried first.
pub fn place_of(links: &[u16], n: usize, x: u16, hints: &[u8; HINTS]) -> usize
    ensures { result ≡ place_by links.now n x hints.now }
{
    if links.len() < n {
        return n;
    }
    let hint = wide(hints[hint_at(x)]);
    if hint == 0 {
        return n;
    }
    let p = hint - 1;
    if p < n {
        if links[p] == x {
            return p;
        }
    }
    index_of(links, n, x)
}

// The place of link x. Where it is new, it is put behind the n others, in a class of its own.
pub(crate) fn place_link(
    links: &mut [u16],
    classes: &mut [u16],
    n: usize,
    x: u16,
    hints: &mut [u8; HINTS],
) -> usize
    requires { (n < link_room) × (length links.old ≡ link_room) × (length classes.old ≡ link_room) × Hinted hints.old links.old n }
    ensures { (result ≤ n) × Places links.old classes.old n links.new classes.new x result × Hinted hints.new links.new (count_with n result) }
{
    let p = place_of(links, n, x, hints);
    hints[hint_at(x)] = (p + 1) as u8;
    if p < n {
        return p;
    }
    links[n] = x;
    classes[n] = n as u16;
    n
}

// How many links there are with the one at place p: one more than n where it was put behind them.
pub(crate) fn count_with(n: usize, p: usize) -> usize
    requires { n < link_room }
    ensures { (result ≤ n + 1) × (result ≡ count_with n p) }
{
    if p == n {
        return n + 1;
    }
    n
}
