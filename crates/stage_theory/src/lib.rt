//! The grammar of sheets as an automaton on lexemes: how far a sheet is read, and what its outline is so far. Definitions
//! and laws alone.
#![tactic(auto)]

mod laws;

pub use laws::stage_laws;
