// Empty sets: a figure link that may go nowhere.
ghost use Rattle.std.specs.Prelude.{◌≡◌, true, ◌↔◌};
ghost use Rattle.candidates.specs.Marks.{MarkLinks, MarkLost};

use crate::LINK_SETS;
use crate::pairs::{is_empty, pair_at};
use rows::Sheet;

// Whether one of m marked figure links may go to no sheet link. Then there is no good placing.
pub fn mark_lost(marked: &[u16; Sheet::MARK_ROOM], m: usize, links: &[u64; LINK_SETS]) -> bool
    requires { MarkLinks marked.now m }
    ensures { (result ≡ true) ↔ MarkLost marked.now m links.now }
{
    for p in 0..m {
        let x = marked[p] as usize;
        let set = pair_at(links, x - 1);
        if is_empty(set) {
            return true;
        }
    }
    false
}
