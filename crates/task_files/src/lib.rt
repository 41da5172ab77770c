// What the programs share: a text read from a file.
#![tactic(auto)]

ghost use Rattle.std.specs.Option.{IfSome};
ghost use Rattle.std.specs.Prelude.{◌≤◌, length, IfOk, IsNone};

use std::env::{Env, FillError};
use std::fmt::Display;
use std::fs::File;
use std::io::{Error, ErrorKind, Read};
use std::rt::Files;
use std::{io, str};

// The longest path, with the zero that ends it.
const PATH: usize = 4096;

// Says on standard error which file failed, and why. Nothing is read of it.
fn fail<D: Display + Drop>(rt: &impl Eprint, name: D, error: Error) -> Option<usize>
    ensures { IsNone result }
{
    let _ = eprintln!(rt; "{name}: {error}");
    None
}

// Reads the open file until it ends or the text is full.
fn read_open(file: &mut impl Read, text: &mut [u8]) -> io::Result<usize>
    ensures { IfOk result (λ bytes. bytes ≤ length text.new) }
{
    let mut bytes = 0;
    while bytes < text.len() {
        let more = file.read(&mut text[bytes..])?;
        if more == 0 {
            return Ok(bytes);
        }
        bytes += more;
    }
    Ok(bytes)
}

// Opens the file of this name, and reads it until it ends or the text is full.
fn read_path<R: Files>(rt: &R, path: &str, text: &mut [u8]) -> io::Result<usize>
    ensures { IfOk result (λ bytes. bytes ≤ length text.new) }
{
    let mut file = File::open(rt, path)?;
    read_open(&mut file, text)
}

// How many bytes of the text were read; none where reading failed, which is said on standard error. A path is text, so a
// name that is not UTF-8 fails.
pub fn read_file<R: Files + Eprint>(rt: &R, name: &[u8], text: &mut [u8]) -> Option<usize>
    ensures { IfSome result (λ bytes. bytes ≤ length text.new) }
{
    let Ok(path) = str::from_utf8(name) else {
        let error = Error::new(ErrorKind::InvalidFilename, "no UTF-8");
        return fail(rt, name.escape_ascii(), error);
    };
    match read_path(rt, path, text) {
        Ok(bytes) => Some(bytes),
        Err(error) => fail(rt, path, error),
    }
}

// Reads the file that argument k names or, where there are not so many arguments, the file of this name.
pub fn read_input<R: Files + Env + Eprint>(
    rt: &R,
    k: usize,
    name: &[u8],
    text: &mut [u8],
) -> Option<usize>
    ensures { IfSome result (λ bytes. bytes ≤ length text.new) }
{
    let mut path = [0u8; PATH];
    match rt.arg(k, &mut path) {
        Ok(n) => read_file(rt, &path[..n], text),
        Err(FillError::NotPresent) => read_file(rt, name, text),
        // An argument that is longer than any path.
        Err(FillError::TooLong) => {
            let error = Error::from(ErrorKind::InvalidFilename);
            fail(rt, path.escape_ascii(), error)
        }
    }
}

// Reads the file of this name; where there is no name, the text is empty.
pub fn read_named<R: Files + Eprint>(rt: &R, name: &[u8], text: &mut [u8]) -> Option<usize>
    ensures { IfSome result (λ bytes. bytes ≤ length text.new) }
{
    if name.len() == 0 {
        return Some(0);
    }
    read_file(rt, name, text)
}
