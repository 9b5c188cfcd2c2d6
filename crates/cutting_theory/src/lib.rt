//! Cuttings of a text's lines into segments, and the tokens of segments one after another. Definitions, a limit and laws
//! alone.
#![tactic(auto)]

mod laws;
mod limits;

pub use laws::{at_law, even_law, segment_tokens_law};
pub use limits::SEGMENTS;
