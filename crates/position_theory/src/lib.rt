//! The positions of patterns, and the states of a joint scanner. Definitions and laws alone.
#![tactic(auto)]

mod laws;

pub use laws::{
    front_law, literal_states_law, match_law, more_states_law, same_step_law, some_byte_law,
    spelling_positions_law, step_law,
};
