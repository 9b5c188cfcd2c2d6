//! The plain types of nodes: where a node stands, and what a kid of a node is. Every crate that speaks of trees in a store
//! speaks by them.
#![tactic(auto)]

mod kid;
mod node_ref;

pub use kid::Kid;
pub use node_ref::NodeRef;
