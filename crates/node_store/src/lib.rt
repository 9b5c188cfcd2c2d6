//! Trees in chunks: a store of nodes that never move, and walks over what it holds.
#![tactic(auto)]

mod chunk;
mod frame;
mod frames;
mod kids;
mod link;
mod links;
mod node;
mod packed_kid;
mod slots;
mod step;
mod store;
mod walk;

pub use kids::Kids;
pub use node_data::{Kid, NodeRef};
pub use packed_kid::PackedKid;
pub use step::Step;
pub use store::Store;
pub use walk::Walk;
