/// The most inner nodes that the least empty tree of a name may have.
pub const EMPTY_NODES: u32 = 1_000;
