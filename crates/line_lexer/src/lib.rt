//! The lines of a text, and the tokens of some of them.
#![tactic(auto)]

mod lex;
mod lexing;
mod lines;
mod taken;

pub use lex::lex_lines;
pub use lines::Lines;
