//! A grammar's canonical collection and tables, or the first of the faults that keep it from having them: a useless name,
//! too many states, a conflict.
#![tactic(auto)]

mod building;

pub use building::{Built, build_grammar};
pub use grammar_faults::GrammarFault;
