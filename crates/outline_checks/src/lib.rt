//! The faults that a sheet has on its lines, found on the sheet as it is written: the first of them.
#![tactic(auto)]

mod alternatives;
mod declarations;
mod first_fault;
mod lines;
mod names;
mod patterns;
mod place_set;
mod symbols;
mod uses;
mod word_set;

pub use lines::first_line_fault;
