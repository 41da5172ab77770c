// Prints the fillings with which a figure is a sheet: an A row with number, input and row, then the rows.
// The files are those that the arguments name, or sheet.txt and figure.txt.
#![tactic(auto)]

use answers::of_done;
use answers::row::{answer_row, written_part};
use finding::place::place;
use rows::Sheet;
use std::io;

fn main(rt: HostRuntime) -> io::Result<()> {
    let mut sheet = [0u8; Sheet::TEXT];
    let first = task_files::read_input(&rt, 1, b"sheet.txt", &mut sheet);
    let mut pattern = [0u8; Sheet::TEXT];
    let second = task_files::read_input(&rt, 2, b"figure.txt", &mut pattern);
    let (Some(n), Some(m)) = (first, second) else {
        return Ok(());
    };
    let mut out = [0u8; Sheet::SLIP];
    let done = place(&sheet[..n], &pattern[..m], &mut out);
    let answer = of_done(done);
    rt.write_all(&answer_row(answer))?;
    rt.write_all(written_part(answer, &out))
}
