//! The number of a state, or none, in 4 bytes: what large tables and collections are made of.
#![tactic(auto)]

mod cell;

pub use cell::StateCell;
