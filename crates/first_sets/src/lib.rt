//! The first tokens of a grammar's names, which names are nullable and by how large a tree, and which are useless.
#![tactic(auto)]

mod analysis;
mod empty_size;
mod fault;
mod first_tokens;
mod firsts;
mod known_names;
mod laws;
mod opening;
mod reached_names;
mod relation;
mod uses;

pub use analysis::analyse;
pub use fault::UselessFault;
pub use firsts::Firsts;
pub use laws::name_fault_laws;
