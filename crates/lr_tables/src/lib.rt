//! The canonical LR(1) tables of a grammar, from its collection, or the first conflict.
#![tactic(auto)]

mod building;
mod clashes;
mod deed;
mod fault;
mod filling;

pub use building::build;
pub use fault::BuildFault;
pub use grammar_faults::{Conflict, Item};
