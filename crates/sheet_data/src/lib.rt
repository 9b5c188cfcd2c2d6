//! A grammar sheet as data: its declarations and the parts of its templates.
#![tactic(auto)]

mod bytes;
mod parts;

pub use bytes::Bytes;
pub use parts::{Decl, Part};
