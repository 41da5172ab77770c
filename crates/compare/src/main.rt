// Compares two sheets and prints an A row: number, input, row, and 1 where they are the same, else 0. The
// sheets are the files that the first two arguments name, or sheet.txt and other.txt.
#![tactic(auto)]

use answers::of_compared;
use answers::row::verdict_row;
use comparing::compare::compare;
use rows::Sheet;
use std::io;

fn main(rt: HostRuntime) -> io::Result<()> {
    let mut sheet = [0u8; Sheet::TEXT];
    let first = task_files::read_input(&rt, 1, b"sheet.txt", &mut sheet);
    let mut other = [0u8; Sheet::TEXT];
    let second = task_files::read_input(&rt, 2, b"other.txt", &mut other);
    let (Some(n), Some(m)) = (first, second) else {
        return Ok(());
    };
    let compared = compare(&sheet[..n], &other[..m]);
    rt.write_all(&verdict_row(of_compared(compared)))
}
