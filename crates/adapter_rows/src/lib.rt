//! Worked rows of the ends: whole pieces over memory, and the real files and streams.
#![tactic(auto)]

#[cfg(test)]
mod adapters;
#[cfg(test)]
mod pieces;
