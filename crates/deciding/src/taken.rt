// Which sheet atoms the figure atoms take.
ghost use Rattle.std.specs.Prelude.{ℕ, ◌<◌, ◌≤◌, get_or};
ghost use Rattle.rows.specs.Limits.{sheet_atom_limit};
ghost use Rattle.placing.specs.Net.{Range};
ghost use Rattle.deciding.specs.Flags.{TakenBy};

use rows::Sheet;

// For each sheet atom 1 where a figure atom goes, or none where two go to one.
pub fn taken_by(count: usize, atoms_to: [u16; Sheet::ATOMS]) -> Option<[u8; Sheet::ATOMS]>
    requires { (count ≤ sheet_atom_limit) × ((i : ℕ) → i < count → Range sheet_atom_limit (get_or atoms_to i 0)) }
    ensures { TakenBy atoms_to count result }
{
    let mut flags = [0u8; Sheet::ATOMS];
    for i in 0..count {
        let t = (atoms_to[i] - 1) as usize;
        if flags[t] == 1 {
            return None;
        }
        flags[t] = 1;
    }
    Some(flags)
}
