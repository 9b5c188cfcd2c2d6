//! Worked rows of the protocol by which workers join neighbouring results.
#![tactic(auto)]

#[cfg(test)]
mod events;
