//! What a parse in segments takes, from the bytes of a sheet and of a text: for rows and for programs that measure.
#![tactic(auto)]

mod fault;
mod language;
mod source;

pub use fault::InputFault;
pub use language::Language;
pub use source::Source;
