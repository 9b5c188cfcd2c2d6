//! The printed texts of the program: what is said of faults, and the lists and tables that are written in blocks.
#![tactic(auto)]

mod diagnostic;
mod fault_texts;
mod name_list;
mod table_list;
mod token_list;

pub use diagnostic::unexpected_text;
pub use fault_texts::{fault_text, grammar_text};
pub use name_list::write_names;
pub use table_list::write_tables;
pub use token_list::write_list;
