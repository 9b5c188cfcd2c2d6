use node_store::Store;
use piece_blocks::Block;

/// A segment that is parsed: its pieces, and the store that has their nodes, all in one chunk.
#[derive(Debug, Drop)]
pub struct Segment {
    pub block: Block,
    pub store: Store,
}
