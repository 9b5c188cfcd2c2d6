//! Patterns as data: sets of bytes, the tree of a pattern, and what a pattern means to a scan.
#![tactic(auto)]

mod bits;
mod byte_set;
mod classes;
mod empty;
mod escapes;
mod fault;
mod group;
mod laws;
mod pattern;
mod print;
mod read;
mod reader;
mod signs;
mod texts;

pub use byte_set::ByteSet;
pub use escapes::front;
pub use fault::PatternFault;
pub use laws::{
    literal_law, no_feed_in_spelling_law, no_line_feed_law, normal_spelling_law, one_byte_law,
    one_spelling_law,
};
pub use pattern::{Meaning, Pattern};
