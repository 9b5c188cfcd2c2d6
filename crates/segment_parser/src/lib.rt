//! The pieces of a segment, parsed from left to right for all left contexts at once.
#![tactic(auto)]

mod entering;
mod flushing;
mod leaf;
mod parsing;
mod reducing;
mod retracing;
mod segment;
mod stepping;

pub use entering::{enter, symbol_of};
pub use leaf::Leaf;
pub use parsing::{parse_segment, parse_segment_by};
pub use piece_blocks::{Block, Floor, Opened, StartFault};
pub use segment::Segment;
