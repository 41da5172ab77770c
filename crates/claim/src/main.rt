// Checks whether a figure holding a list of fillings is a sheet, and prints an A row: number, input, row,
// and 1 for yes, else 0. The files are those that the arguments name, or sheet.txt, figure.txt and list.txt.
#![tactic(auto)]

use answers::of_claimed;
use answers::row::verdict_row;
use claiming::claim::claim;
use rows::Sheet;
use std::io;

fn main(rt: HostRuntime) -> io::Result<()> {
    let mut sheet = [0u8; Sheet::TEXT];
    let first = task_files::read_input(&rt, 1, b"sheet.txt", &mut sheet);
    let mut figure = [0u8; Sheet::TEXT];
    let second = task_files::read_input(&rt, 2, b"figure.txt", &mut figure);
    let mut list = [0u8; Sheet::TEXT];
    let third = task_files::read_input(&rt, 3, b"list.txt", &mut list);
    let (Some(n), Some(m), Some(p)) = (first, second, third) else {
        return Ok(());
    };
    let claimed = claim(&sheet[..n], &figure[..m], &list[..p]);
    rt.write_all(&verdict_row(of_claimed(claimed)))
}
