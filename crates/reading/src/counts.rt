// Counts of what a text holds.
ghost use Rattle.std.specs.Prelude.{◌≡◌, ◌-◌};
ghost use Rattle.rows.specs.Pick.{pick};

// The place of the last of n contexts; where there is none, that of an empty one.
pub(crate) fn before(n: usize) -> usize
    ensures { result ≡ n - 1 }
{
    if n == 0 {
        return 0;
    }
    n - 1
}

// 1 for one more, else 0.
pub(crate) fn counted(more: bool) -> usize
    ensures { result ≡ pick more 1 0 }
{
    if more {
        return 1;
    }
    0
}
