/// The most states that a collection and its tables may have.
pub const MOST_STATES: u32 = 10_000;
