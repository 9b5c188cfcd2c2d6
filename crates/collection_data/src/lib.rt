//! The plain type of the entries of a state, and what contracts see of a canonical collection; with the laws of entries and
//! of collections. Definitions and laws alone.
#![tactic(auto)]

mod entry;
mod laws;

pub use entry::Entry;
pub use laws::{entry_laws, one_collection_law, table_laws};
