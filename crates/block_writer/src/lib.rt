//! What writes a text to a sink in blocks, and numbers in decimal digits.
#![tactic(auto)]

mod blocks;
mod number;

pub use blocks::{BLOCK_BYTES, Blocks};
pub use number::push_number;
pub use writing_theory::WriteFault;
