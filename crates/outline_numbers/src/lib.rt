//! Gives the tokens, literals, names and rules of an outline their numbers, and looks at the limits.
#![tactic(auto)]

mod copies;
mod limits;
mod numbering;
mod numbers;
mod rules;
mod start;
mod vocabulary;
mod words;

pub use numbering::{Numbered, number_outline};
pub use numbering_theory::sheet_grammar_law;
