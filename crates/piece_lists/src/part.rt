use piece_blocks::Block;

/// A part of a list of pieces: those of a block behind the first ones, so many, which stand elsewhere.
#[derive(Debug, Drop)]
pub struct Part {
    pub block: Block,
    pub skipped: usize,
}
