//! How far a scan has come.

/// A walk through the states of a scanner, from one place of a text on.
#[derive(Clone, Copy, Debug)]
pub struct Walk {
    /// The place behind what was read.
    pub at: usize,
    pub state: u16,
    /// The longest match so far: its length, and the least rank that has it.
    pub best: Option<(usize, u32)>,
    /// Whether no longer match comes.
    pub ended: bool,
}

/// The longest match that a walk has found, as its loop keeps it.
#[derive(Clone, Copy, Debug)]
pub struct Found {
    /// The place behind it; where the walk began, where there is none.
    pub behind: usize,
    /// What the table says of the state there: the least rank that ends, or that none does.
    pub end: u16,
}
