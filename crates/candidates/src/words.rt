// Sets of numbers as words: t is in the set where digit t, counted from 0, is 1.
ghost use Rattle.std.specs.Prelude.{◌≡◌, ◌<◌};
ghost use Rattle.candidates.specs.Words.{word_digits, In, alone, fewer, first_in};

// How many numbers a word may have.
pub const DIGITS: usize = 64;

// All numbers that a word may have.
pub const ALL: u64 = 0xffff_ffff_ffff_ffff;

// The set of t alone.
pub fn one(t: usize) -> u64
    requires { t < word_digits }
    ensures { result ≡ alone t }
{
    1u64 << t
}

// What is in a and not in b.
pub fn minus(a: u64, b: u64) -> u64
    ensures { result ≡ fewer a b }
{
    a ^ (a & b)
}

// The first number of a set that has one.
pub fn first(s: u64) -> usize
    requires { 0 < s }
    ensures { (result < word_digits) × In s result × (result ≡ first_in s) }
{
    u64::trailing_zeros(s) as usize
}
