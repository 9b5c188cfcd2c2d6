/// The most segments that a text may be cut into.
pub const SEGMENTS: usize = 4_096;
