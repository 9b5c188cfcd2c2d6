//! The program's one call, from the bytes read to the bytes written.
#![tactic(auto)]

mod call;
mod commands;
mod inputs;
mod laws;
mod outputs;
mod reporting;
mod samples;
mod saying;
mod segments;
mod stop;
mod translating;

pub use answer_theory::Status;
pub use call::lrpar;
pub use laws::{complete_law, loaded_law, one_due_law};
