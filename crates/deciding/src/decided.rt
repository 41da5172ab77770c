// The figure links that placed atoms and marks decide.
ghost use Rattle.network.specs.Ready.{Ready, AtomsIn};
ghost use Rattle.candidates.specs.Laid.{LaidOut};
ghost use Rattle.candidates.specs.Frames.{whole};
ghost use Rattle.deciding.specs.Agrees.{AllPut};

use crate::links::put_atoms;
use crate::marks::{marks_back, put_marks};
use candidates::LAID;
use candidates::frame::Frame;
use rows::Sheet;

// Where the figure links go, 0 where nothing decides it, or none where two places disagree. `laid` are the sheet's
// atoms, `parts` the figure's.
pub fn links_of<'a>(
    sheet: Frame,
    figure: Frame,
    laid: &'a [u16; LAID],
    parts: &'a [u16; LAID],
    atoms_to: [u16; Sheet::ATOMS],
) -> Option<[u16; Sheet::LINKS]>
    requires { Ready (whole sheet laid.now) (whole figure parts.now) × AtomsIn (whole sheet laid.now) figure.atom_count atoms_to × LaidOut (whole sheet laid.now) laid.now sheet.atom_count × LaidOut (whole figure parts.now) parts.now figure.atom_count }
    ensures { AllPut (whole sheet laid.now) (whole figure parts.now) atoms_to result }
{
    let mut to = [0u16; Sheet::LINKS];
    if !put_atoms(laid, parts, figure.atom_count, &atoms_to, &mut to) {
        return None;
    }
    if !marks_back(
        &sheet.marks,
        sheet.mark_count,
        &figure.marks,
        figure.mark_count,
    ) {
        return None;
    }
    if !put_marks(
        &sheet.marks,
        &sheet.marked,
        sheet.mark_count,
        &figure.marks,
        &figure.marked,
        figure.mark_count,
        &mut to,
    ) {
        return None;
    }
    Some(to)
}
