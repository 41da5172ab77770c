// Prints a figure filled from a list of fillings: an A row with number, input and row, then the rows. The
// files are those that the arguments name, or figure.txt and list.txt.
#![tactic(auto)]

use answers::of_done;
use answers::row::{answer_row, written_part};
use filling::fill::fill;
use rows::Sheet;
use std::io;

fn main(rt: HostRuntime) -> io::Result<()> {
    let mut figure = [0u8; Sheet::TEXT];
    let first = task_files::read_input(&rt, 1, b"figure.txt", &mut figure);
    let mut list = [0u8; Sheet::TEXT];
    let second = task_files::read_input(&rt, 2, b"list.txt", &mut list);
    let (Some(n), Some(m)) = (first, second) else {
        return Ok(());
    };
    let mut out = [0u8; Sheet::SLIP];
    let done = fill(&figure[..n], &list[..m], &mut out);
    let answer = of_done(done);
    rt.write_all(&answer_row(answer))?;
    rt.write_all(written_part(answer, &out))
}
