//! The lexemes of a sheet: what stands at a place of its bytes, up to where, and what is a fault. Definitions and laws
//! alone.
#![tactic(auto)]

mod begin;
mod found;
mod laws;
mod lexeme;

pub use begin::Begin;
pub use found::{FaultKind, Found};
pub use laws::{
    end_line_law, ends_law, join_law, one_found_law, one_reading_law, one_spelling_law,
    printed_law, some_found_law,
};
pub use lexeme::{Directive, Lexeme, Single};
