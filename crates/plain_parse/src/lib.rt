//! One parse from left to right by lawful tables: the only derivation tree of a sentence, or the first token with which no
//! sentence goes on, with a state that expects exactly the tokens that could stand there.
#![tactic(auto)]

mod parsed;
mod parsing;
mod run;
mod running;

pub use parsed::Parsed;
pub use parsing::parse_one;
