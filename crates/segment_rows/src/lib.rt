//! Worked rows of cuttings of texts into segments, and of the pieces that a segment is parsed into.
#![tactic(auto)]

#[cfg(test)]
mod cuttings;
#[cfg(test)]
mod pieces;
