// Numbers mixed. Nothing is asked of the result but that equal numbers give equal ones.
ghost use Rattle.std.specs.Prelude.{◌≡◌};
ghost use Rattle.colours.specs.Mixed.{mixed};

const HALF: u64 = 4294967296;

const LOW: u64 = 2654435761;

const HIGH: u64 = 2246822519;

// A name, or a mark, does not stay the small number that it is.
pub(crate) const SEED: u64 = 11400714819323198485;

pub(crate) fn mix(a: u64, b: u64) -> u64
    ensures { result ≡ mixed a b }
{
    let x = a ^ b;
    (x % HALF * LOW) ^ (x / HALF * HIGH)
}
