//! A table of maps of states: each map that a parse from unknown contexts comes to has a number in it.
#![tactic(auto)]

mod arrows;
mod asking;
mod cell;
mod forgetting;
mod forgotten;
mod id;
mod interning;
mod known;
mod look;
mod looking;
mod memo;
mod opening;
mod rows;
mod stepping;

pub use arrows::Arrows;
pub use id::ArrowId;
pub use look::Look;
pub use opening::Opening;
