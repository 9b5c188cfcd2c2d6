//! Scanning: which tokens a text has by the patterns of a sheet. Definitions, limits and laws alone.
#![tactic(auto)]

mod laws;
mod limits;

pub use laws::{cutting_law, line_starts_law, longest_law, one_list_law, some_list_law};
pub use limits::{PATTERNS, POSITIONS, STATES};
