//! The plain type of what a table says of a state and a token, and what contracts see of tables, and nothing else: the
//! definitions of machines and the code of tables speak by them.
#![tactic(auto)]

mod act;
mod limits;

pub use act::Act;
pub use limits::MOST_STATES;
