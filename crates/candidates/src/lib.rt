// What a search looks at: the atoms of a net laid out, and where figure atoms and figure links may go, as sets.
#![tactic(auto)]

pub mod empty;
pub mod forced;
pub mod frame;
pub mod laid;
pub mod pairs;
pub mod ports;
pub mod words;

use rows::Sheet;

// The atoms of a net, laid out.
pub const LAID: usize = Sheet::ATOMS * Sheet::FIELDS;

// Where figure links may go: two words for each, which `pairs` reads and writes. Where a figure atom may go is one
// word, since a sheet has no more atoms than a word has digits.
pub const LINK_SETS: usize = Sheet::LINKS * 2;

// Labels of figure links, of which all links of one context have one, and behind them how many links the figure's
// atoms have, which only guides the work.
pub const KIN: usize = Sheet::LINKS + 1;
