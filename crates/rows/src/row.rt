// The one row reader: a letter and its fields, by one table.
ghost use Rattle.std.specs.Prelude.{◌≡◌, ◌↔◌, [], true, ◌+◌, ◌<◌, ◌≤◌, length, get_or};
ghost use Rattle.rows.specs.Format.{field_width, row_width, no_letter, letter_of, rules};
ghost use Rattle.rows.specs.Row.{misplaced_in, needed, suits, Blank, no_row, row_of};

use crate::Sheet;

// What a field of a row may hold: a number from low to high where it is filled, nothing elsewhere.
// A counted field is filled where the row's count, its second field, reaches it. What a link field holds is a joint.
#[derive(Clone, Copy)]
pub struct Rule {
    pub filled: bool,
    pub counted: bool,
    pub link: bool,
    pub low: u16,
    pub high: u16,
}

const BLANK: Rule = Rule {
    filled: false,
    counted: false,
    link: false,
    low: 0,
    high: 0,
};

const NAME: Rule = Rule {
    filled: true,
    counted: false,
    link: false,
    low: 1,
    high: Sheet::MOST_NAME,
};

const NUMBER: Rule = Rule {
    filled: true,
    counted: false,
    link: false,
    low: 1,
    high: Sheet::MOST_CONTEXT,
};

const COUNT: Rule = Rule {
    filled: true,
    counted: false,
    link: false,
    low: 0,
    high: Sheet::MOST_LINKS as u16,
};

const LINK: Rule = Rule {
    filled: true,
    counted: false,
    link: true,
    low: 1,
    high: Sheet::MOST_NUMBER,
};

const PORT: Rule = Rule {
    filled: false,
    counted: true,
    link: true,
    low: 1,
    high: Sheet::MOST_NUMBER,
};

// What each field may hold, for the letters S B F E H.
const RULES: [[Rule; Sheet::FIELDS]; Row::NO_LETTER] = [
    [NAME, COUNT, PORT, PORT, PORT, PORT, PORT, PORT],
    [NUMBER, COUNT, PORT, PORT, PORT, PORT, PORT, PORT],
    [LINK, LINK, BLANK, BLANK, BLANK, BLANK, BLANK, BLANK],
    [LINK, NAME, BLANK, BLANK, BLANK, BLANK, BLANK, BLANK],
    [NUMBER, COUNT, BLANK, BLANK, BLANK, BLANK, BLANK, BLANK],
];

// A row as read: the place of its letter in the table, or `NO_LETTER`; whether every field is as the table asks; and its
// numbers, up to the first bad field.
#[derive(Clone, Copy)]
pub struct Row {
    pub letter: usize,
    pub good: bool,
    pub nums: [u16; Sheet::FIELDS],
}

impl Row {
    // The letters by their places in the table: S, B, F, E and H.
    pub const ATOM: usize = 0;

    pub const CONTEXT: usize = 1;

    pub const FUSION: usize = 2;

    pub const EDGE: usize = 3;

    pub const HEAD: usize = 4;

    // Any other byte; also how many letters there are.
    pub const NO_LETTER: usize = 5;

    // A row without a letter.
    pub fn none() -> Self
        ensures { result ≡ no_row }
    {
        Row {
            letter: Row::NO_LETTER,
            good: false,
            nums: [0; Sheet::FIELDS],
        }
    }
}

pub(crate) fn letter_of(b: u8) -> usize
    ensures { result ≡ letter_of b }
{
    match b {
        b'S' => Row::ATOM,
        b'B' => Row::CONTEXT,
        b'F' => Row::FUSION,
        b'E' => Row::EDGE,
        b'H' => Row::HEAD,
        _ => Row::NO_LETTER,
    }
}

// The table's rules for a letter. The table is lent, so that it is read where it lies; else it would be laid out anew at
// each row. A place that is known when the program is compiled costs nothing to read.
pub fn rules_of(letter: usize) -> [Rule; Sheet::FIELDS]
    requires { letter < no_letter }
    ensures { result ≡ get_or rules letter [] }
{
    let table = &RULES;
    match letter {
        Row::ATOM => table[Row::ATOM],
        Row::CONTEXT => table[Row::CONTEXT],
        Row::FUSION => table[Row::FUSION],
        Row::EDGE => table[Row::EDGE],
        _ => table[Row::HEAD],
    }
}

// Whether field f is to hold a number, in a row with this count.
fn is_needed(rule: Rule, f: usize, count: u16) -> bool
    ensures { result ≡ needed rule f count }
{
    if rule.counted {
        return f < 2 + count as usize;
    }
    rule.filled
}

// Whether field f may hold what was read there, in a row with this count.
pub(crate) fn field_suits(rule: Rule, f: usize, count: u16, filled: bool, n: u16) -> bool
    ensures { result ≡ suits rule f count filled n }
{
    if !is_needed(rule, f, count) {
        return !filled;
    }
    if !filled {
        return false;
    }
    if n < rule.low {
        return false;
    }
    n <= rule.high
}

// Whether byte b may not stand in a field's column: a space after a digit, a byte that is neither a
// space nor a digit, or a zero that is the number's first digit and not its only one.
pub(crate) fn misplaced(b: u8, filled: bool, last: bool) -> bool
    ensures { result ≡ misplaced_in b filled last }
{
    if b == b' ' {
        return filled;
    }
    if b < b'0' {
        return true;
    }
    if b'9' < b {
        return true;
    }
    if b != b'0' {
        return false;
    }
    if filled {
        return false;
    }
    !last
}

// A field of spaces as one number.
const SPACES: u32 = 0x2020_2020;

// Whether the four columns from byte `at` on are spaces, compared at once.
fn is_blank(row: &[u8], at: usize) -> bool
    requires { at + field_width ≤ length row.now }
    ensures { (result ≡ true) ↔ Blank row.now at }
{
    u32::from_le_bytes([row[at], row[at + 1], row[at + 2], row[at + 3]]) == SPACES
}

// The row's letter and numbers. The first bad field ends the reading.
pub fn read_row(row: &[u8]) -> Row
    requires { length row.now ≡ row_width }
    ensures { result ≡ row_of row.now }
{
    let letter = letter_of(row[0]);
    if letter == Row::NO_LETTER {
        return Row::none();
    }
    let own = rules_of(letter);
    let mut nums = [0u16; Sheet::FIELDS];
    let mut good = true;
    'row: for f in 0..Sheet::FIELDS {
        let at = f * Sheet::FIELD + 1;
        if !is_needed(own[f], f, nums[1]) {
            if !is_blank(row, at) {
                good = false;
                break 'row;
            }
            continue 'row;
        }
        let mut n: u16 = 0;
        let mut filled = false;
        for col in 0..Sheet::FIELD {
            let b = row[at + col];
            if misplaced(b, filled, col + 1 == Sheet::FIELD) {
                good = false;
                break 'row;
            }
            if b != b' ' {
                n = n * 10 + (b - b'0') as u16;
                filled = true;
            }
        }
        if !field_suits(own[f], f, nums[1], filled, n) {
            good = false;
            break 'row;
        }
        nums[f] = n;
    }
    Row { letter, good, nums }
}
