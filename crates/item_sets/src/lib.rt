//! The canonical collection of a grammar: all states, the items of each, and the steps between them.
#![tactic(auto)]

mod building;
mod closing;
mod collection;
mod fault;
mod found;
mod item_set;
mod layout;
mod spot;
mod states;
mod successors;
mod table;

pub use building::collect;
pub use collection::Collection;
pub use collection_data::Entry;
pub use fault::CollectFault;
