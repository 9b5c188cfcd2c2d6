//! A text for a sheet, made by a number and a size.
#![tactic(auto)]

mod alternatives;
mod choices;
mod closing;
mod closing_texts;
mod fault;
mod sampling;
mod words;

pub use fault::SampleFault;
pub use sampling::generate;
