// A search on its way, and one figure atom more placed.
ghost use Rattle.std.specs.Prelude.{◌≡◌, ◌<◌};
ghost use Rattle.rows.specs.Limits.{sheet_atom_limit};
ghost use Rattle.matching.specs.Search.{with_atom};

use candidates::frame::Frame;
use rows::Sheet;

// A search on its way: the sheet and the figure without their atoms, where the first `placed` figure atoms go, and
// whether it is known that no good placing begins so, and whether ways are looked for.
#[derive(Clone, Copy)]
pub(crate) struct State {
    pub(crate) sheet: Frame,
    pub(crate) figure: Frame,
    pub(crate) chosen: [u16; Sheet::ATOMS],
    pub(crate) placed: usize,
    pub(crate) hopeless: bool,
    pub(crate) asks: bool,
}

// Work at a node, each try and what it cost, before ways are looked for below it: most searches end sooner.
const PATIENT: u32 = 8;

// Whether ways are looked for, where so much work was done at a node.
pub(crate) fn asks_after(asks: bool, work: u32) -> bool {
    if asks {
        return true;
    }
    PATIENT <= work
}

// Figure atom k, the next after those placed, goes to sheet atom t.
pub(crate) fn with_atom(
    state: State,
    placed: [u16; Sheet::ATOMS],
    k: usize,
    t: usize,
    hopeless: bool,
    work: u32,
) -> State
    requires { (k < sheet_atom_limit) × (t < sheet_atom_limit) }
    ensures { result ≡ with_atom state.sheet state.figure placed k t hopeless result.asks }
{
    let sheet = state.sheet;
    let figure = state.figure;
    let mut chosen = placed;
    chosen[k] = (t + 1) as u16;
    State {
        sheet,
        figure,
        chosen,
        placed: k + 1,
        hopeless,
        asks: asks_after(state.asks, work),
    }
}
