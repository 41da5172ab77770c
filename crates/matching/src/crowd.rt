// Ways between contexts at a node of the search.
ghost use Rattle.network.specs.Ready.{Ready};
ghost use Rattle.candidates.specs.Frames.{whole};
ghost use Rattle.candidates.specs.Laid.{LaidOut};
ghost use Rattle.ways.specs.Nodes.{NoneStays};

use candidates::frame::Frame;
use candidates::{LAID, LINK_SETS};
use rows::Sheet;
use stepping::CHAINS;
use stepping::chains::chains;
use stepping::standing::standing;
use ways::crowded::crowded;

// Whether ways tell that no good placing stays in the sets. With one context there are none.
pub(crate) fn crowded_at<'a>(
    sheet: Frame,
    figure: Frame,
    laid: &'a [u16; LAID],
    parts: &'a [u16; LAID],
    atoms: &[u64; Sheet::ATOMS],
    links: &[u64; LINK_SETS],
) -> bool
    requires { Ready (whole sheet laid.now) (whole figure parts.now) × LaidOut (whole sheet laid.now) laid.now sheet.atom_count × LaidOut (whole figure parts.now) parts.now figure.atom_count }
    ensures { NoneStays (whole sheet laid.now) (whole figure parts.now) atoms.now links.now result }
{
    if figure.context_count < 2 {
        return false;
    }
    let mut table = [0u16; CHAINS];
    chains(&mut table, laid, sheet.atom_count);
    let ports = figure.contexts;
    let words = standing(ports, figure.context_count);
    crowded(
        sheet.atom_count,
        sheet.class_count,
        figure.class_count,
        laid,
        &table,
        figure.atom_count,
        parts,
        &words,
        atoms,
        links,
        &figure.marked,
        figure.mark_count,
    )
}
