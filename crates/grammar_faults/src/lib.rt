//! The plain types of a grammar's faults, what it means that one is a grammar's first, and what stands where there is none:
//! the canonical collection and its tables. Definitions and laws alone.
#![tactic(auto)]

mod conflict;
mod fault;
mod laws;

pub use conflict::{Conflict, Item};
pub use fault::GrammarFault;
pub use laws::grammar_fault_laws;
