// Figure links that may go to one sheet link.
ghost use Rattle.std.specs.Prelude.{◌-◌, ◌≤◌, get_or};
ghost use Rattle.rows.specs.Limits.{sheet_atom_limit};
ghost use Rattle.rows.specs.declared.Sheet.{Sheet as NormalForm};
ghost use Rattle.network.specs.NetIn.{net_in};
ghost use Rattle.candidates.specs.Kin.{RowLabels};
ghost use Rattle.candidates.specs.PortSets.{Ports, ContextsIn};

use candidates::ports::PortSet;
use candidates::{KIN, LAID};
use rows::Sheet;
use stepping::steps::step_labels;

// The greatest number of a link in the first m rows.
fn last_link(parts: &[u16; LAID], m: usize) -> u16
    requires { m ≤ sheet_atom_limit }
{
    let mut last = 0u16;
    for i in 0..m {
        for k in 2..Sheet::FIELDS {
            let x = parts[i * Sheet::FIELDS + k];
            if last < x {
                last = x;
            }
        }
    }
    last
}

// The links of each context get one label, as if all went to one place. A figure's links are numbered from its atoms
// on, so behind the labels stands how many its m atoms have.
pub fn kin_of(
    contexts: [PortSet; Sheet::CONTEXT_ROOM],
    rows: usize,
    links: usize,
    parts: &[u16; LAID],
    m: usize,
) -> [u16; KIN]
    requires { Ports contexts rows links × (m ≤ sheet_atom_limit) }
    ensures { (net : NormalForm) → ContextsIn net contexts rows links → RowLabels (net_in net) (λ x. get_or result (x - 1) 0) }
{
    let together = [0u16; Sheet::LINKS];
    let mut labels = [0u16; Sheet::LINKS];
    step_labels(&mut labels, &together, contexts, rows, links);
    let mut kin = [0u16; KIN];
    kin[..Sheet::LINKS].copy_from_slice(&labels);
    kin[Sheet::LINKS] = last_link(parts, m);
    kin
}
