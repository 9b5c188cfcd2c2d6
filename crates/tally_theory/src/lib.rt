//! What a run reports of a text that is cut into segments: how many segments there are, how many joins they need, how many
//! tokens, pieces of a parse and nodes of the tree; with the laws that there is one report at most, and not none.
//! Definitions and laws alone.
#![tactic(auto)]

mod asked;
mod begins;
mod cut;
mod laws;

pub use asked::Asked;
pub use begins::Begins;
pub use cut::Cut;
pub use laws::{answer_laws, cut_laws, report_laws, run_laws};
