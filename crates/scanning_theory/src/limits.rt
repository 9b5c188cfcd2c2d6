/// The most patterns that a scan may go by.
pub const PATTERNS: usize = 300;

/// The most positions that these may have together.
pub const POSITIONS: usize = 5_000;

/// The most states that their scanner may have.
pub const STATES: usize = 20_000;
