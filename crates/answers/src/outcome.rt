// What the tasks answer.
use sheet::answer::Refusal;

// Fill, place and swap: the bytes written; the buffer is too short; an input is refused at a row; over whole
// texts, an input's row with a context that has no filling, or with a filling whose marks are not its ports;
// no good placing; a result that is no sheet.
#[derive(Clone, Copy)]
pub enum Done {
    Written(usize),
    ShortSlip,
    Refused(u16, Refusal, usize),
    BlankClash(u16, usize),
    EdgeDiffers(u16, usize),
    NoPlacing,
    TooLarge,
}

// Compare: the two sheets are the same, or not; or an input, the first or the second, is refused at a row.
#[derive(Clone, Copy)]
pub enum Compared {
    Same,
    Differs,
    Refused(u16, Refusal, usize),
}

// Claim: the filled figure is the same as the sheet, or not; an input is refused at a row; over whole texts, an
// input's row with a context that has no filling, or with a filling whose marks are not its ports.
#[derive(Clone, Copy)]
pub enum Claimed {
    Holds,
    Differs,
    Refused(u16, Refusal, usize),
    BlankClash(u16, usize),
    EdgeDiffers(u16, usize),
}
