/// The most digits of a number among the words.
pub const NUMBER_DIGITS: usize = 9;

/// The most choices that are drawn for a sample text.
pub const SAMPLE_SIZE: u32 = 1_000_000;

/// The segments of a text for which no cutting is told.
pub const USUAL_SEGMENTS: u32 = 16;

/// The most workers of a parse.
pub const WORKERS_LIMIT: u32 = 64;

/// The workers of a parse for which no number is told.
pub const USUAL_WORKERS: u32 = 4;
