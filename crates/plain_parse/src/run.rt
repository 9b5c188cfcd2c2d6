use lr_base::StateId;
use node_store::{PackedKid, Store};

/// A parse at some moment: the states of the machine's stack, the base state first and the top last; a kid for each entry of
/// the stack, the top's last; and the nodes that were made.
#[derive(Debug, Drop)]
pub struct Run {
    pub states: Vec<StateId>,
    pub kids: Vec<PackedKid>,
    pub store: Store,
}
