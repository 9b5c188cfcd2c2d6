//! A sheet's bytes have one outline, or one first fault of the reading from left to right. Laws alone.
#![tactic(auto)]

mod laws;

pub use laws::{apart_law, one_fault_law, one_outline_law, some_answer_law};
