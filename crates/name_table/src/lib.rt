//! The names that a tree declares: each once, in the order of its first marked leaf, with its number.
#![tactic(auto)]

mod entries;
mod marked_places;
mod markings;
mod names;
mod parts;
mod row;
mod tally;
mod tree_names;

pub use names::Names;
pub use row::Row;
pub use tree_names::declared;
