//! The form of the words that a call of the program is given: which words ask for which task, in one way at most, and for none
//! that can't be done; and in which segments a text is parsed by them, and by how many workers. Definitions and laws alone.
#![tactic(auto)]

mod command_name;
mod laws;
mod limits;

pub use command_name::CommandName;
pub use laws::{form_law, one_form_law, one_parse_law, parse_law};
pub use limits::{NUMBER_DIGITS, SAMPLE_SIZE, USUAL_SEGMENTS, USUAL_WORKERS, WORKERS_LIMIT};
