//! The shortest word of each rank of a scanner.
#![tactic(auto)]

mod search;
mod word;

pub use word::shortest_word;
