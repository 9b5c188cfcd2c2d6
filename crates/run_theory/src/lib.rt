//! What a run over a text answers: the translation or the names of its only tree, or else one diagnostic; with the laws
//! that there is one answer at most, and not none. Definitions and laws alone.
#![tactic(auto)]

mod emit;
mod laws;

pub use emit::Emit;
pub use laws::{answer_laws, run_laws, sentence_laws, sheet_token_laws};
