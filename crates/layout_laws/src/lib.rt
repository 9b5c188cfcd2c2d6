//! The normal layout of a sheet reads as this sheet. Laws alone.
#![tactic(auto)]

mod laws;

pub use laws::layout_law;
