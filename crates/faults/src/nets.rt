// What is read of a sheet and a figure beside atoms and marks.
use candidates::ports::PortSet;
use rows::Sheet;

// The sheet's counts of atoms and links, and the figure's contexts, of which there are `rows`, and its count
// of links.
#[derive(Clone, Copy)]
pub struct Nets {
    pub atoms: usize,
    pub links: usize,
    pub contexts: [PortSet; Sheet::CONTEXT_ROOM],
    pub rows: usize,
    pub count: usize,
}
