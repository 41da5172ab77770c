// Reads texts of every kind and prints, for each, the number, input and row of the reader's answer.
// The arguments go in pairs: a kind (sheet, pattern, figure, replacement, list), and a file. A
// replacement is read against the pattern before it.
#![tactic(auto)]

use answers::of_reading;
use reading::read::Reading;
use rows::Sheet;
use sheet::answer::Answer;
use std::rt::Files;
use std::{env, io};

// The name of the file.
fn print_name(rt: &impl Print, file: &str) -> io::Result<()> {
    rt.print(file)
}

// A space, and the number.
fn print_number(rt: &impl Print, number: u64) -> io::Result<()> {
    print!(rt; " {number}")
}

fn print_answer(rt: &impl Print, answer: Answer) -> io::Result<()> {
    let values = of_reading(answer, 1);
    print_number(rt, values.number as u64)?;
    print_number(rt, values.input as u64)?;
    print_number(rt, values.row as u64)?;
    rt.write_all(b"\n")
}

fn read_as(kind: u8, ports: [u16; Sheet::NUMBERS], text: &[u8]) -> Reading {
    match kind {
        b's' => reading::read::read_sheet(text),
        b'p' => reading::read::read_pattern(text),
        b'f' => reading::read::read_figure(text),
        b'r' => reading::read::read_replacement(ports, text),
        _ => reading::read::read_list(text),
    }
}

// Reads the file as this kind, and prints the answer. Gives the ports of the last pattern's contexts.
fn read_case<R: Files + Print + Eprint>(
    rt: &R,
    kind: &str,
    file: &str,
    ports: [u16; Sheet::NUMBERS],
) -> io::Result<[u16; Sheet::NUMBERS]> {
    let mut text = [0u8; Sheet::TEXT];
    let Some(length) = task_files::read_file(rt, file.as_bytes(), &mut text) else {
        return Ok(ports);
    };
    let letter = kind.as_bytes().first().copied().unwrap_or(0);
    let reading = read_as(letter, ports, &text[..length]);
    print_name(rt, file)?;
    let answer = reading.answer;
    print_answer(rt, answer)?;
    if letter != b'p' {
        return Ok(ports);
    }
    Ok(reading.ports)
}

fn main(rt: HostRuntime) -> io::Result<()> {
    let mut ports = [0u16; Sheet::NUMBERS];
    let words: Vec<String> = env::args(&rt)?.skip(1).collect(rt.alloc())?;
    for pair in words.chunks_exact(2) {
        if let [kind, file] = pair {
            ports = read_case(&rt, kind.as_str(), file.as_str(), ports)?;
        }
    }
    Ok(())
}
