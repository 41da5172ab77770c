// The rows of one filling, as a part of the list of fillings that holds them.
ghost use Rattle.std.specs.Prelude.{◌≡◌, ◌+◌, ◌-◌, ◌≤◌, length, take, drop};
ghost use Rattle.sheet.specs.Filling.{from_head, before_head, filling_of, HeadsRead};

use rows::{Context, Sheet};

// The letter of a head.
const HEAD_BYTE: u8 = b'H';

// Where the row of the first head with this number starts; the list's length where no head has it.
fn head_at(list: &[u8], heads: [Context; Sheet::CONTEXT_ROOM], count: usize, number: u16) -> usize
    requires { HeadsRead list.now heads count }
    ensures { (result ≤ length list.now) × (drop result list.now ≡ from_head (length list.now) number list.now) }
{
    let mut i = 0;
    while i < count {
        if heads[i].number == number {
            return (heads[i].row as usize - 1) * Sheet::ROW;
        }
        i += 1;
    }
    list.len()
}

// Where the rows before the next head end, from this row on.
fn rows_end(list: &[u8], from: usize) -> usize
    requires { from ≤ length list.now }
    ensures { (from ≤ result) × (result ≤ length list.now) × (take (result - from) (drop from list.now) ≡ before_head (length list.now) (drop from list.now)) }
{
    let mut at = from;
    while at < list.len() {
        if list.len() - at < Sheet::ROW {
            return at;
        }
        if list[at] == HEAD_BYTE {
            return at;
        }
        at += Sheet::ROW;
    }
    at
}

// The filling of one context, its head first, as a part of a list that passed, by the heads that its reader handed back;
// empty where the context has no filling there.
pub fn part_for(
    list: &[u8],
    heads: [Context; Sheet::CONTEXT_ROOM],
    count: usize,
    number: u16,
) -> &[u8]
    requires { HeadsRead list.now heads count }
    ensures { result.now ≡ filling_of list.now number }
{
    let from = head_at(list, heads, count, number);
    if list.len() - from < Sheet::ROW {
        return &list[0..0];
    }
    let to = rows_end(list, from + Sheet::ROW);
    &list[from..to]
}
