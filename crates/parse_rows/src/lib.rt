//! Worked rows of the parse from left to right: trees, first wrong tokens, and what could stand there.
#![tactic(auto)]

#[cfg(test)]
mod parses;
