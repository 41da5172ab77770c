// The one row writer: a letter, its fields and a newline, at a place of the slip.
ghost use Rattle.std.specs.Prelude.{◌≡◌, [], ◌∷◌, ◌++◌, true, ℕ, ◌+◌, ◌*◌, ◌<◌, ◌≤◌, length, take, drop, get_or};
ghost use Rattle.rows.specs.Pick.{pick};
ghost use Rattle.rows.specs.Format.{field_width, field_count, row_width, most_number};
ghost use Rattle.writing.specs.RowText.{column_at, field_bytes, empty_field, fields_bytes, row_bytes};

use rows::Sheet;

// The column of n at this place: its digit, or a space before its first digit.
fn column_at(n: u16, place: u16) -> u8
    requires { 0 < place }
    ensures { result ≡ column_at n place }
{
    if n < place {
        return b' ';
    }
    b'0' + (n / place % 10) as u8
}

// Four bytes, one after the other.
fn put_columns(out: &mut [u8], at: usize, a: u8, b: u8, c: u8, d: u8)
    requires { at + field_width ≤ length out.old }
    ensures { out.new ≡ take at out.old ++ (a ∷ b ∷ c ∷ d ∷ []) ++ drop (at + field_width) out.old }
{
    out[at] = a;
    out[at + 1] = b;
    out[at + 2] = c;
    out[at + 3] = d;
}

// A field: n where it is filled, else four spaces.
fn put_field(out: &mut [u8], at: usize, filled: bool, n: u16)
    requires field_width_in_bounds { at + field_width ≤ length out.old }
    requires n_le_most_number { filled ≡ true → n ≤ most_number }
    ensures { out.new ≡ take at out.old ++ pick filled (field_bytes n) empty_field ++ drop (at + field_width) out.old }
{
    if filled {
        let thousands = column_at(n, 1000);
        let hundreds = column_at(n, 100);
        let tens = column_at(n, 10);
        put_columns(out, at, thousands, hundreds, tens, b'0' + (n % 10) as u8);
    } else {
        put_columns(out, at, b' ', b' ', b' ', b' ');
    }
}

// Every field of a row: the first count numbers, then empty fields.
fn put_fields(out: &mut [u8], at: usize, nums: [u16; Sheet::FIELDS], count: usize)
    requires field_width_in_bounds { at + field_count * field_width ≤ length out.old }
    requires count_le_field_count { count ≤ field_count }
    requires by_index { (k : ℕ) → k < count → get_or nums k 0 ≤ most_number }
    ensures { out.new ≡ take at out.old ++ fields_bytes field_count (take count nums) ++ drop (at + field_count * field_width) out.old }
{
    let mut f = 0;
    while f < Sheet::FIELDS {
        put_field(out, at + f * Sheet::FIELD, f < count, nums[f]);
        f += 1;
    }
}

// A row with this letter and the first count numbers, from byte `at` on.
pub fn put_row(out: &mut [u8], at: usize, letter: u8, nums: [u16; Sheet::FIELDS], count: usize)
    requires row_width_in_bounds { at + row_width ≤ length out.old }
    requires count_le_field_count { count ≤ field_count }
    requires by_index { (k : ℕ) → k < count → get_or nums k 0 ≤ most_number }
    ensures { out.new ≡ take at out.old ++ row_bytes letter (take count nums) ++ drop (at + row_width) out.old }
{
    out[at] = letter;
    put_fields(out, at + 1, nums, count);
    out[at + Sheet::ROW - 1] = b'\n';
}
