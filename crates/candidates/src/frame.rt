// A normal form without its atoms, which are laid out and lent beside it.
ghost use Rattle.std.specs.Prelude.{◌≡◌};
ghost use Rattle.candidates.specs.Frames.{frame_with};

use crate::ports::PortSet;
use rows::Sheet;

#[derive(Clone, Copy)]
pub struct Frame {
    pub atom_count: usize,
    pub contexts: [PortSet; Sheet::CONTEXT_ROOM],
    pub context_count: usize,
    pub marks: [u16; Sheet::MARK_ROOM],
    pub marked: [u16; Sheet::MARK_ROOM],
    pub mark_count: usize,
    pub class_count: usize,
}

// The contexts are handed over as sets.
pub fn frame_of(net: Sheet, contexts: [PortSet; Sheet::CONTEXT_ROOM]) -> Frame
    ensures { result ≡ frame_with net contexts }
{
    let marks = net.marks;
    let marked = net.marked;
    Frame {
        atom_count: net.atom_count,
        contexts,
        context_count: net.context_count,
        marks,
        marked,
        mark_count: net.mark_count,
        class_count: net.class_count,
    }
}
