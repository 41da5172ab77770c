// Sheet atoms that a figure cannot take.
ghost use Rattle.std.specs.Prelude.{◌≡◌, true, ◌↔◌, ◌<◌};

// Whether a figure with so many contexts and m atoms leaves some of n sheet atoms to nobody.
pub fn leaves_some(contexts: usize, m: usize, n: usize) -> bool
    ensures { (result ≡ true) ↔ ((contexts ≡ 0) × (m < n)) }
{
    contexts == 0 && m < n
}
