// Pieces: atoms that hang together by links that they share.
ghost use Rattle.std.specs.Prelude.{◌≡◌, ℕ, suc, ◌+◌, ◌-◌, ◌*◌, ◌<◌, ◌↔◌, length, slice_index};
ghost use Rattle.rows.specs.Format.{most_links};
ghost use Rattle.rows.specs.Limits.{sheet_atom_limit, sheet_link_limit};
ghost use Rattle.rows.specs.declared.Sheet.{Sheet as NormalForm};
ghost use Rattle.network.specs.NetIn.{net_in};
ghost use Rattle.network.specs.Sums.{sum_to};
ghost use Rattle.candidates.specs.Laid.{Rowed, LaidOut};
ghost use Rattle.candidates.specs.Words.{word_digits, digit, In};
ghost use Rattle.narrowing.specs.Users.{UsersIn};
ghost use Rattle.colours.specs.Pieces.{Share, Sizes};
ghost use Rattle.colours.specs.Arrays.{PieceIn};

use candidates::LAID;
use candidates::laid::laid_atom;
use candidates::words::{ALL, first, minus, one};
use narrowing::PLACES;
use rows::Sheet;

// The atoms on link y, counted from 0.
fn on_link(users: &[u64; PLACES], y: usize) -> u64
    requires { y < sheet_link_limit }
    ensures { (u : ℕ) → In result u ↔ ((k : ℕ) × (k < most_links) × In (slice_index users.now (k * sheet_link_limit + y)) u) }
{
    let mut all = 0u64;
    for k in 0..Sheet::MOST_LINKS {
        all = all | users[k * Sheet::LINKS + y];
    }
    all
}

// The atoms that share a link with atom t.
fn beside<'a>(laid: &'a [u16; LAID], n: usize, users: &'a [u64; PLACES], t: usize) -> u64
    requires { Rowed laid.now n × (t < n) }
    ensures { (net : NormalForm) → LaidOut net laid.now n → UsersIn laid.now n users.now → (u : ℕ) → In result u ↔ Share (net_in net) (suc t) (suc u) }
{
    let atom = laid_atom(laid, t);
    let count = atom.count as usize;
    let mut all = 0u64;
    for k in 0..count {
        let y = atom.links[k] as usize;
        all = all | on_link(users, y - 1);
    }
    all
}

// The atoms that hang together with atom t. `rest` are those whose neighbours are not added yet.
fn piece_of<'a>(laid: &'a [u16; LAID], n: usize, users: &'a [u64; PLACES], t: usize) -> u64
    requires { Rowed laid.now n × (t < n) × UsersIn laid.now n users.now }
    ensures { (net : NormalForm) → LaidOut net laid.now n → PieceIn net t result }
{
    let mut piece = one(t);
    let mut rest = ALL;
    while piece & rest != 0 {
        let u = first(piece & rest);
        rest = minus(rest, one(u));
        if u < n {
            piece = piece | beside(laid, n, users, u);
        }
    }
    piece
}

// How many atoms a piece has.
fn size_of(piece: u64) -> u64
    ensures { result ≡ sum_to (λ j. digit piece (j - 1)) word_digits }
{
    u64::count_ones(piece) as u64
}

// The size for all atoms of a piece.
fn put_size(piece: u64, size: u64, sizes: &mut [u64; Sheet::ATOMS])
    requires { length sizes.old ≡ sheet_atom_limit }
    ensures { (length sizes.new ≡ sheet_atom_limit) × ((u : ℕ) → u < sheet_atom_limit → In piece u → slice_index sizes.new u ≡ size) × ((u : ℕ) → ¬ In piece u → slice_index sizes.new u ≡ slice_index sizes.old u) }
{
    let mut rest = piece;
    while rest != 0 {
        let u = first(rest);
        rest = minus(rest, one(u));
        sizes[u] = size;
    }
}

// For each of n atoms how many hang together with it, into a table of zeros.
pub(crate) fn sizes_of<'a>(
    laid: &'a [u16; LAID],
    n: usize,
    users: &'a [u64; PLACES],
    sizes: &mut [u64; Sheet::ATOMS],
)
    requires { Rowed laid.now n × UsersIn laid.now n users.now × (length sizes.old ≡ sheet_atom_limit) × ((t : ℕ) → slice_index sizes.old t ≡ 0) }
    ensures { (length sizes.new ≡ sheet_atom_limit) × ((net : NormalForm) → LaidOut net laid.now n → Sizes (net_in net) (λ j. slice_index sizes.new (j - 1))) }
{
    for t in 0..n {
        if sizes[t] == 0 {
            let piece = piece_of(laid, n, users, t);
            put_size(piece, size_of(piece), sizes);
        }
    }
}
