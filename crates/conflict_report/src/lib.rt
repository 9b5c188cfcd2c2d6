//! Prints items, conflicts, and tables with the items of their states.
#![tactic(auto)]

mod items;
mod printer;
mod tables;
mod words;

pub use items::{conflict_text, item_text};
pub use printer::Printer;
pub use tables::{push_states_line, tables_text};
