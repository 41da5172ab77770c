// Runs tasks on texts and prints each answer. Each argument is a case: a task's name and its files, with
// a space before each file.
#![tactic(auto)]

ghost use Rattle.std.specs.Prelude.{◌≤◌, length};

use answers::row::{answer_row, verdict_row, written_part};
use answers::{TaskAnswer, Verdict, of_claimed, of_compared, of_done, of_normalised};
use claiming::claim::claim;
use comparing::compare::compare;
use filling::fill::fill;
use finding::place::place;
use normalising::normalise::{normalise_figure, normalise_sheet};
use rows::Sheet;
use std::rt::Files;
use std::{env, io};
use swapping::swap::swap;
use task_files::read_named;

// Where the word that begins at `from` ends.
fn word_end(case: &[u8], from: usize) -> usize
    requires { from ≤ length case.now }
    ensures after { from ≤ result }
    ensures within { result ≤ length case.now }
{
    for k in from..case.len() {
        if case[k] == b' ' {
            return k;
        }
    }
    case.len()
}

// Where the word after the one that ends at `end` begins.
fn next_word(case: &[u8], end: usize) -> usize
    requires { end ≤ length case.now }
    ensures after { end ≤ result }
    ensures within { result ≤ length case.now }
{
    if end < case.len() { end + 1 } else { end }
}

fn print_answer(rt: &impl Print, answer: TaskAnswer, out: &[u8]) -> io::Result<()> {
    rt.write_all(&answer_row(answer))?;
    rt.write_all(written_part(answer, out))
}

fn print_verdict(rt: &impl Print, verdict: Verdict) -> io::Result<()> {
    rt.write_all(&verdict_row(verdict))
}

// The task of this name on these texts; a text that it does not use is empty.
fn run_task(
    rt: &impl Print,
    task: &[u8],
    first: &[u8],
    second: &[u8],
    third: &[u8],
) -> io::Result<()> {
    let mut out = [0u8; Sheet::SLIP];
    match task {
        b"normalise" => {
            let done = normalise_sheet(first, &mut out);
            print_answer(rt, of_normalised(done), &out)
        }
        b"normalise_figure" => {
            let done = normalise_figure(first, &mut out);
            print_answer(rt, of_normalised(done), &out)
        }
        b"compare" => print_verdict(rt, of_compared(compare(first, second))),
        b"fill" => {
            let done = fill(first, second, &mut out);
            print_answer(rt, of_done(done), &out)
        }
        b"place" => {
            let done = place(first, second, &mut out);
            print_answer(rt, of_done(done), &out)
        }
        b"claim" => print_verdict(rt, of_claimed(claim(first, second, third))),
        b"swap" => {
            let done = swap(first, second, third, &mut out);
            print_answer(rt, of_done(done), &out)
        }
        _ => Ok(()),
    }
}

// The task of this name on the texts in the files of these names; a name that it does not use is empty.
fn run_files<R: Files + Print + Eprint>(
    rt: &R,
    task: &[u8],
    first: &[u8],
    second: &[u8],
    third: &[u8],
) -> io::Result<()> {
    let mut text = [0u8; Sheet::TEXT];
    let input = read_named(rt, first, &mut text);
    let mut other = [0u8; Sheet::TEXT];
    let other_input = read_named(rt, second, &mut other);
    let mut last = [0u8; Sheet::TEXT];
    let last_input = read_named(rt, third, &mut last);
    let (Some(n), Some(m), Some(p)) = (input, other_input, last_input) else {
        return Ok(());
    };
    run_task(rt, task, &text[..n], &other[..m], &last[..p])
}

fn run_case<R: Files + Print + Eprint>(rt: &R, case: &[u8]) -> io::Result<()> {
    let task = 0;
    let end = word_end(case, task);
    let first = next_word(case, end);
    let first_end = word_end(case, first);
    let second = next_word(case, first_end);
    let second_end = word_end(case, second);
    let third = next_word(case, second_end);
    let third_end = word_end(case, third);
    run_files(
        rt,
        &case[task..end],
        &case[first..first_end],
        &case[second..second_end],
        &case[third..third_end],
    )
}

fn main(rt: HostRuntime) -> io::Result<()> {
    for case in env::args(&rt)?.skip(1) {
        run_case(&rt, case.as_bytes())?;
    }
    Ok(())
}
