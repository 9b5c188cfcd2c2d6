use lr_base::NoMemory;
use piece_blocks::{Block, Floor};
use segment_parser::Segment;
use std::alloc::Global;
use std::fmt;

/// What the segments of a text are parsed into: so many tokens, pieces, floors of pieces, alive starts and faults of floors,
/// entries of pieces, and nodes.
#[derive(Clone, Copy, Debug, PartialEq, Eq)]
pub struct Counts {
    pub tokens: u64,
    pub pieces: u64,
    pub floors: u64,
    pub starts: u64,
    pub faults: u64,
    pub entries: u64,
    pub nodes: u64,
}

impl Counts {
    /// Nothing is counted.
    pub fn none() -> Counts {
        Counts {
            tokens: 0,
            pieces: 0,
            floors: 0,
            starts: 0,
            faults: 0,
            entries: 0,
            nodes: 0,
        }
    }

    /// Counts a floor.
    fn count_floor(&mut self, alloc: Global, floor: &Floor) -> Result<(), NoMemory> {
        let faults = floor.faults().list(alloc)?;
        self.floors = self.floors.saturating_add(1);
        self.starts = self.starts.saturating_add(floor.starts().len() as u64);
        self.faults = self.faults.saturating_add(faults.len() as u64);
        Ok(())
    }

    /// Counts the pieces of a block.
    fn count_block(&mut self, alloc: Global, block: &Block) -> Result<(), NoMemory> {
        for index in 0..block.count() {
            self.pieces = self.pieces.saturating_add(1);
            self.tokens = self.tokens.saturating_add(block.tokens(index) as u64);
            self.entries = self.entries.saturating_add(block.kids(index).len() as u64);
            for floor in block.floors(index) {
                self.count_floor(alloc, floor)?;
            }
        }
        Ok(())
    }

    /// Counts a segment.
    pub fn count_segment(&mut self, alloc: Global, segment: &Segment) -> Result<(), NoMemory> {
        self.nodes = self.nodes.saturating_add(segment.store.node_count());
        self.count_block(alloc, &segment.block)
    }
}

impl fmt::Display for Counts {
    fn fmt<W: fmt::Write>(&self, f: &mut fmt::Formatter<W>) -> fmt::Result {
        let Counts {
            tokens,
            pieces,
            floors,
            starts,
            faults,
            entries,
            nodes,
        } = self;
        write!(
            f,
            "tokens {tokens} pieces {pieces} floors {floors} starts {starts} faults {faults} entries {entries} nodes {nodes}"
        )
    }
}
