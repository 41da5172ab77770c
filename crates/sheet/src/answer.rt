// What a reader answers: the refusals of a row, in the table's order, and the row that is refused.
#[derive(Clone, Copy)]
pub enum Refusal {
    Ragged,
    StrangeRow,
    BadColumn,
    Long,
    Crowded,
    Joints,
    Marks,
    BlankClash,
}

// A text passed, or it is refused at a row, counted from 1.
#[derive(Clone, Copy)]
pub enum Answer {
    Passed,
    Refused(Refusal, usize),
}
