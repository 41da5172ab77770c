// Swaps a figure in a sheet for another and prints an A row with number, input and row, then the new sheet.
// The files are those that the arguments name, or sheet.txt, figure.txt and replacement.txt.
#![tactic(auto)]

use answers::of_done;
use answers::row::{answer_row, written_part};
use rows::Sheet;
use std::io;
use swapping::swap::swap;

fn main(rt: HostRuntime) -> io::Result<()> {
    let mut sheet = [0u8; Sheet::TEXT];
    let first = task_files::read_input(&rt, 1, b"sheet.txt", &mut sheet);
    let mut pattern = [0u8; Sheet::TEXT];
    let second = task_files::read_input(&rt, 2, b"figure.txt", &mut pattern);
    let mut replacement = [0u8; Sheet::TEXT];
    let third = task_files::read_input(&rt, 3, b"replacement.txt", &mut replacement);
    let (Some(n), Some(m), Some(p)) = (first, second, third) else {
        return Ok(());
    };
    let mut out = [0u8; Sheet::SLIP];
    let done = swap(&sheet[..n], &pattern[..m], &replacement[..p], &mut out);
    let answer = of_done(done);
    rt.write_all(&answer_row(answer))?;
    rt.write_all(written_part(answer, &out))
}
