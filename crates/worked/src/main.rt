// Runs the worked cases of document 01 that are not starred, each on a buffer of the least length and on one that is a
// byte shorter. Prints the answer and what was written, and whether the rest of the buffer is as it was.
#![tactic(auto)]

use answers::row::{answer_row, written_part};
use answers::{TaskAnswer, of_done, of_normalised};
use rows::Sheet;
use std::io;
use std::rt::Files;
use task_files::read_named;

// A row more than a text may have.
const LONG: usize = (Sheet::ROWS + 1) * Sheet::ROW;

const SHORT: usize = Sheet::SLIP - 1;

const OLD: u8 = b'.';

// The task of this name; a text that it does not use is empty.
fn run_task(task: &[u8], first: &[u8], second: &[u8], third: &[u8], out: &mut [u8]) -> TaskAnswer {
    match task {
        b"normalise" => of_normalised(normalising::normalise::normalise_sheet(first, out)),
        b"normalise_figure" => of_normalised(normalising::normalise::normalise_figure(first, out)),
        b"fill" => of_done(filling::fill::fill(first, second, out)),
        b"place" => of_done(finding::place::place(first, second, out)),
        _ => of_done(swapping::swap::swap(first, second, third, out)),
    }
}

fn print_run(rt: &impl Print, answer: TaskAnswer, out: &[u8]) -> io::Result<()> {
    rt.write_all(&answer_row(answer))?;
    rt.write_all(written_part(answer, out))?;
    let from = answer.bytes;
    let end = out.len();
    if from <= end && end <= Sheet::SLIP {
        let old = [OLD; Sheet::SLIP];
        if &out[from..] == &old[from..end] {
            rt.write_all(b"rest kept\n")?;
        }
    }
    Ok(())
}

fn run_texts(
    rt: &impl Print,
    task: &[u8],
    first: &[u8],
    second: &[u8],
    third: &[u8],
) -> io::Result<()> {
    let mut out = [OLD; Sheet::SLIP];
    let done = run_task(task, first, second, third, &mut out);
    print_run(rt, done, &out)?;
    let mut short = [OLD; SHORT];
    let refused = run_task(task, first, second, third, &mut short);
    print_run(rt, refused, &short)
}

fn run_case<R: Files + Print + Eprint>(
    rt: &R,
    task: &[u8],
    first_name: &[u8],
    second_name: &[u8],
    third_name: &[u8],
) -> io::Result<()> {
    let mut first = [0u8; LONG];
    let input = read_named(rt, first_name, &mut first);
    let mut second = [0u8; LONG];
    let second_input = read_named(rt, second_name, &mut second);
    let mut third = [0u8; LONG];
    let third_input = read_named(rt, third_name, &mut third);
    let (Some(n), Some(m), Some(p)) = (input, second_input, third_input) else {
        return Ok(());
    };
    run_texts(rt, task, &first[..n], &second[..m], &third[..p])
}

// The pattern's blank stands twice in the replacement.
fn run_doubled<R: Files + Print + Eprint>(rt: &R) -> io::Result<()> {
    run_case(rt, b"swap", b"rows-32.txt", b"pattern.txt", b"twice.txt")?;
    run_case(rt, b"swap", b"rows-33.txt", b"pattern.txt", b"twice.txt")
}

fn run_long<R: Files + Print + Eprint>(rt: &R) -> io::Result<()> {
    run_case(rt, b"normalise", b"points-256.txt", b"", b"")?;
    run_case(rt, b"normalise", b"points-257.txt", b"", b"")?;
    run_case(rt, b"normalise", b"points-256-byte.txt", b"", b"")
}

// Each task with an output.
fn run_outputs<R: Files + Print + Eprint>(rt: &R) -> io::Result<()> {
    run_case(rt, b"normalise", b"sheet.txt", b"", b"")?;
    run_case(rt, b"normalise_figure", b"pattern.txt", b"", b"")?;
    run_case(rt, b"fill", b"pattern.txt", b"list.txt", b"")?;
    run_case(rt, b"place", b"sheet.txt", b"pattern.txt", b"")?;
    run_case(rt, b"swap", b"sheet.txt", b"pattern.txt", b"twice.txt")
}

fn main(rt: HostRuntime) -> io::Result<()> {
    run_doubled(&rt)?;
    run_long(&rt)?;
    run_outputs(&rt)
}
