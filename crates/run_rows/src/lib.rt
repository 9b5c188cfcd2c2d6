//! Worked rows of texts that are parsed in segments, each beside the parse of the same text from left to right.
#![tactic(auto)]

#[cfg(test)]
mod cuts;
#[cfg(test)]
mod runs;
#[cfg(test)]
mod walks;
