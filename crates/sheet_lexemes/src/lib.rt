//! Reads the lexemes of a sheet, one after another.
#![tactic(auto)]

mod begin;
mod cursor;
mod escapes;
mod fault;
mod found;
mod kinds;
mod numbers;
mod read;
mod runs;
mod texts;

pub use cursor::Cursor;
pub use fault::LexFault;
pub use read::{Read, next_lexeme};
