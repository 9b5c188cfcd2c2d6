//! The dead ends of a line: pairs of a place and a scanner's state that lead to no match.
#![tactic(auto)]

mod dead_ends;

pub use dead_ends::{DeadEnds, STATE_NUMBERS};
