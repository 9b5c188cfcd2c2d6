use std::marker::Model;

/// Where a node stands: the number of its chunk, and its place in the chunk, counted from 0. Contracts see the pair of
/// chunk and place.
#[derive(Clone, Copy, Debug, PartialEq, Eq)]
pub struct NodeRef {
    pub place: u64,
    pub chunk: u32,
}

impl Model for NodeRef {
    ghost use Rattle.std.specs.Prelude.{ℕ};

    ghost Value = { ℕ × ℕ };

    ghost view = { λ node. (node.chunk, node.place) };

    ghost inverse = { λ pair. record { place = pair.1; chunk = pair.0 } };
}

const _: () = prove!(std::mem::size_of::<NodeRef>() == 16);
