/// The most leaves that a core may have.
pub const LEAVES: u32 = 4_096;
