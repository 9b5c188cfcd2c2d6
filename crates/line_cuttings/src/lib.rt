//! Cuttings of a text's lines into segments.
#![tactic(auto)]

mod cutting;

pub use cutting::Cutting;
pub use cutting_theory::SEGMENTS;
