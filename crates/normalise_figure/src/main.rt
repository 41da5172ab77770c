// Prints the normal text of a figure: an A row with number, input and row, then its rows. The figure is the
// file that the first argument names, or figure.txt.
#![tactic(auto)]

use answers::of_normalised;
use answers::row::{answer_row, written_part};
use normalising::normalise::normalise_figure;
use rows::Sheet;
use std::io;

fn main(rt: HostRuntime) -> io::Result<()> {
    let mut figure = [0u8; Sheet::TEXT];
    let Some(n) = task_files::read_input(&rt, 1, b"figure.txt", &mut figure) else {
        return Ok(());
    };
    let mut out = [0u8; Sheet::SLIP];
    let done = normalise_figure(&figure[..n], &mut out);
    let answer = of_normalised(done);
    rt.write_all(&answer_row(answer))?;
    rt.write_all(written_part(answer, &out))
}
