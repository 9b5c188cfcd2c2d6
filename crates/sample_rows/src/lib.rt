//! Worked rows of shortest words and of sample texts.
#![tactic(auto)]

#[cfg(test)]
mod samples;
