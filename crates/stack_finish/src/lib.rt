//! The end of a parse in parts: pieces are put on one after the other, from the known start, up to the end mark.
#![tactic(auto)]

mod ending;
mod filling;
mod finishing;
mod gathered;
mod gathering;
mod parts;
mod putting;

pub use filling::fill;
pub use finishing::finish;
