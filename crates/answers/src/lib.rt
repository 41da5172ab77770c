// The numbers of document 01's table for each task's answer, and what a program prints of them.
#![tactic(auto)]

pub mod outcome;
pub mod row;

ghost use Rattle.std.specs.Prelude.{◌≡◌, false};
ghost use Rattle.sheet.specs.Answer.{refusal_number};
ghost use Rattle.answers.specs.Values.{reading_values, normalised_values, done_values, compared_values, claimed_values};

use crate::outcome::{Claimed, Compared, Done};
use normalising::normalise::Normalised;
use sheet::answer::{Answer, Refusal};

// The table's number of an answer, its input and row, and the bytes written.
#[derive(Clone, Copy)]
pub struct TaskAnswer {
    pub number: u16,
    pub input: u16,
    pub row: usize,
    pub bytes: usize,
}

// The table's number of an answer, its input and row, the bytes written, which are none, and its yes or no.
#[derive(Clone, Copy)]
pub struct Verdict {
    pub number: u16,
    pub input: u16,
    pub row: usize,
    pub bytes: usize,
    pub yes: bool,
}

// The refusal's number in the table.
pub fn refusal_number(why: Refusal) -> u16
    ensures { result ≡ refusal_number why }
{
    match why {
        Refusal::Ragged => 1,
        Refusal::StrangeRow => 2,
        Refusal::BadColumn => 3,
        Refusal::Long => 4,
        Refusal::Crowded => 5,
        Refusal::Joints => 6,
        Refusal::Marks => 7,
        Refusal::BlankClash => 8,
    }
}

// Done, and these bytes are written.
fn written(bytes: usize) -> TaskAnswer
    ensures { result ≡ record { number = 0; input = 0; row = 0; bytes = bytes } }
{
    TaskAnswer {
        number: 0,
        input: 0,
        row: 0,
        bytes,
    }
}

// A refusal writes nothing.
fn refused(number: u16, input: u16, row: usize) -> TaskAnswer
    ensures { result ≡ record { number = number; input = input; row = row; bytes = 0 } }
{
    TaskAnswer {
        number,
        input,
        row,
        bytes: 0,
    }
}

// What a reader answers of the text that is this input of its task.
pub fn of_reading(answer: Answer, input: u16) -> TaskAnswer
    ensures { result ≡ reading_values input answer }
{
    match answer {
        Answer::Passed => written(0),
        Answer::Refused(why, row) => refused(refusal_number(why), input, row),
    }
}

// What normalising answers.
pub fn of_normalised(done: Normalised) -> TaskAnswer
    ensures { result ≡ normalised_values done }
{
    match done {
        Normalised::Written(bytes) => written(bytes),
        Normalised::ShortSlip => refused(10, 0, 0),
        Normalised::Refused(why, row) => refused(refusal_number(why), 1, row),
    }
}

// What fill, place and swap answer.
pub fn of_done(done: Done) -> TaskAnswer
    ensures { result ≡ done_values done }
{
    match done {
        Done::Written(bytes) => written(bytes),
        Done::ShortSlip => refused(10, 0, 0),
        Done::Refused(input, why, row) => refused(refusal_number(why), input, row),
        Done::BlankClash(input, row) => refused(8, input, row),
        Done::EdgeDiffers(input, row) => refused(9, input, row),
        Done::NoPlacing => refused(11, 0, 0),
        Done::TooLarge => refused(12, 0, 0),
    }
}

// Done, with this yes or no.
fn decided(yes: bool) -> Verdict
    ensures { result ≡ record { number = 0; input = 0; row = 0; bytes = 0; yes = yes } }
{
    Verdict {
        number: 0,
        input: 0,
        row: 0,
        bytes: 0,
        yes,
    }
}

// A refusal says no.
fn denied(number: u16, input: u16, row: usize) -> Verdict
    ensures { result ≡ record { number = number; input = input; row = row; bytes = 0; yes = false } }
{
    Verdict {
        number,
        input,
        row,
        bytes: 0,
        yes: false,
    }
}

// What compare answers: yes for the same alone.
pub fn of_compared(done: Compared) -> Verdict
    ensures { result ≡ compared_values done }
{
    match done {
        Compared::Same => decided(true),
        Compared::Differs => decided(false),
        Compared::Refused(input, why, row) => denied(refusal_number(why), input, row),
    }
}

// What claim answers: yes for a claim that holds alone.
pub fn of_claimed(claimed: Claimed) -> Verdict
    ensures { result ≡ claimed_values claimed }
{
    match claimed {
        Claimed::Holds => decided(true),
        Claimed::Differs => decided(false),
        Claimed::Refused(input, why, row) => denied(refusal_number(why), input, row),
        Claimed::BlankClash(input, row) => denied(8, input, row),
        Claimed::EdgeDiffers(input, row) => denied(9, input, row),
    }
}
