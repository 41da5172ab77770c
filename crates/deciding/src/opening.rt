// The figure links that neither an atom nor a mark decides.
ghost use Rattle.std.specs.Prelude.{◌≤◌};
ghost use Rattle.rows.specs.Limits.{sheet_link_limit};
ghost use Rattle.deciding.specs.Flags.{OpensIn};

use rows::Sheet;

// The open links go to none, and are flagged.
#[derive(Clone, Copy)]
pub struct Opened {
    pub to: [u16; Sheet::LINKS],
    pub flags: [u8; Sheet::LINKS],
}

pub fn open_links(to: [u16; Sheet::LINKS], none: u16, count: usize) -> Opened
    requires { count ≤ sheet_link_limit }
    ensures { OpensIn to none count result }
{
    let mut next = to;
    let mut flags = [0u8; Sheet::LINKS];
    for x in 0..count {
        if next[x] == 0 {
            next[x] = none;
            flags[x] = 1;
        }
    }
    Opened { to: next, flags }
}
