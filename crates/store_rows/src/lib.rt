//! Worked rows of the store: nodes that are added, stores that are joined, kids that are filled, and the walk over a tree.
#![tactic(auto)]

#[cfg(test)]
mod stores;
