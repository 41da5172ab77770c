// The states that a search for one way more came to. A vertex is a link, or behind the links an atom; it has two states,
// the second one behind all vertices.
ghost use Rattle.std.specs.Prelude.{ℕ, ◌<◌, ◌≤◌, slice_index};
ghost use Rattle.ways.specs.Flow.{vertex_count, state_count};

use crate::trail::wide;
use rows::Sheet;

pub(crate) const VERTICES: usize = Sheet::LINKS + Sheet::ATOMS;

pub(crate) const STATES: usize = 2 * VERTICES;

// Where a state was entered from that the search starts with.
pub(crate) const START: u16 = 65535;

// For each state where it was entered from: 0 where it was not, START, or 1 more than twice the place, with 1 more where
// that was left in the second state. The states that were entered stand in `queue`, in order.
#[derive(Drop)]
pub(crate) struct Look {
    entered: [u16; STATES],
    queue: [u16; STATES],
    pub(crate) count: usize,
    ghost few: { count ≤ state_count },
    ghost states: { (k : ℕ) → k < count → slice_index queue k < state_count },
}

impl Look {
    pub(crate) fn new() -> Look {
        Look {
            entered: [0; STATES],
            queue: [0; STATES],
            count: 0,
        }
    }

    // The search is to go on from this state, if it did not yet.
    pub(crate) fn reach(&mut self, state: usize, from: u16)
        requires { state < state_count }
    {
        if self.entered[state] != 0 {
            return;
        }
        if self.count == STATES {
            return;
        }
        self.entered[state] = from;
        self.queue[self.count] = state as u16;
        self.count += 1;
    }

    // The state that was entered as number n.
    pub(crate) fn state(&self, n: usize) -> usize
        requires { n < self.now.count }
        ensures { result < state_count }
    {
        wide(self.queue[n])
    }

    // Where the state was entered from.
    pub(crate) fn entry(&self, state: usize) -> u16
        requires { state < state_count }
    {
        self.entered[state]
    }
}

// 1 for a second state.
pub(crate) fn second_state(state: usize) -> usize
    ensures { result < 2 }
{
    if state < VERTICES {
        return 0;
    }
    1
}

// The vertex of a state.
pub(crate) fn vertex_of(state: usize) -> usize
    requires { state < state_count }
    ensures { result < vertex_count }
{
    if state < VERTICES {
        return state;
    }
    state - VERTICES
}
