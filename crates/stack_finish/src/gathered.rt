use lr_base::StateId;
use node_store::{PackedKid, Store};

/// A parse from the known start, between two pieces: the entries that the pieces so far leave on state 0, a kid and the state over
/// it for each, the lowest first; the store of all pieces, and the number of its chunk for new nodes; and how many tokens the
/// pieces so far have.
#[derive(Debug, Drop)]
pub struct Gathered {
    pub kids: Vec<PackedKid>,
    pub states: Vec<StateId>,
    pub store: Store,
    pub chunk: u32,
    pub count: u32,
}
