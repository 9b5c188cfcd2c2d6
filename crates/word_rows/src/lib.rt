//! Worked rows of the words that the program is given.
#![tactic(auto)]

#[cfg(test)]
mod options;
