//! Reads the bytes of a sheet into its outline, or finds their first lexical or syntactic fault.
#![tactic(auto)]

mod declarations;
mod progress;
mod read;
mod rules;
mod sides;

pub use read::read_outline;
