// The contexts that remain for each sheet atom that no figure atom takes, wherever the open links go.
#![tactic(auto)]

mod atoms;
mod classes;
mod joins;
pub mod remaining;

// A word with all digits of contexts.
pub(crate) const ALL: u16 = 0xffff;

// How many words there are of the digits 0 to 4, which those of a figure's contexts are.
pub(crate) const WORDS: usize = 32;
