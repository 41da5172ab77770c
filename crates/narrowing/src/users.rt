// For each place and link the atoms that have the link there.
ghost use Rattle.std.specs.Prelude.{◌≡◌, ◌⊎◌, ℕ, ◌+◌, ◌*◌, ◌-◌, ◌<◌, length, get_or, replicate};
ghost use Rattle.rows.specs.Format.{most_links};
ghost use Rattle.rows.specs.Limits.{sheet_link_limit};
ghost use Rattle.network.specs.NetIn.{Used};
ghost use Rattle.candidates.specs.Laid.{Rowed};
ghost use Rattle.candidates.specs.Words.{word_digits, In};
ghost use Rattle.narrowing.specs.Users.{UsersIn};
ghost use Rattle.candidates.specs.Laid.{link_of};

use crate::PLACES;
use candidates::LAID;
use candidates::laid::laid_atom;
use candidates::words::one;
use rows::{Atom, Sheet};

// Atom t at each of its places.
fn add_users(there: Atom, t: usize, users: &mut [u64; PLACES])
    requires { Used sheet_link_limit there.count there.links × (t < word_digits) × (length users.old ≡ most_links * sheet_link_limit) }
    ensures width { length users.new ≡ most_links * sheet_link_limit }
    ensures kept { (q u : ℕ) → In (get_or users.old q 0) u → In (get_or users.new q 0) u }
    ensures there { (k : ℕ) → k < there.count → In (get_or users.new (k * sheet_link_limit + (link_of there k - 1)) 0) t }
    ensures only { (q u : ℕ) → In (get_or users.new q 0) u → In (get_or users.old q 0) u ⊎ ((u ≡ t) × ((k : ℕ) × (k < there.count) × (q ≡ k * sheet_link_limit + (link_of there k - 1)))) }
{
    let count = there.count as usize;
    for k in 0..count {
        let y = there.links[k] as usize;
        let at = k * Sheet::LINKS + (y - 1);
        users[at] = users[at] | one(t);
    }
}

// The first n atoms, into a table of zeros.
pub fn users_of(laid: &[u16; LAID], n: usize, users: &mut [u64; PLACES])
    requires { Rowed laid.now n × (users.old ≡ replicate (most_links * sheet_link_limit) 0) }
    ensures { UsersIn laid.now n users.new }
{
    for t in 0..n {
        let there = laid_atom(laid, t);
        add_users(there, t, users);
    }
}
