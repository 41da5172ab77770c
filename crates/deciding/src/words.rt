// A number in a set that is a word.
ghost use Rattle.std.specs.Prelude.{◌<◌, ◌≡◌, true, ◌↔◌};
ghost use Rattle.candidates.specs.Words.{word_digits, In};

// The set has t.
pub(crate) fn has(set: u64, t: usize) -> bool
    requires { t < word_digits }
    ensures { (result ≡ true) ↔ In set t }
{
    (set >> t) & 1 == 1
}
