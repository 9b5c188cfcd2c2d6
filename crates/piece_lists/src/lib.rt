//! Lists of pieces of a parse, in parts, with the store that has their nodes.
#![tactic(auto)]

mod part;
mod pieces;

pub use part::Part;
pub use pieces::Pieces;
