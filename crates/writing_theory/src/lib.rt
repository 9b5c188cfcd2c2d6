//! How the writing of a text to a sink may come out, and what was gathered and taken of one that is written in blocks.
//! Definitions alone.
#![tactic(auto)]

mod fault;

pub use fault::WriteFault;
