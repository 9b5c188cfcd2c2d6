//! Worked rows of grammars: their names, collections, tables and conflicts.
#![tactic(auto)]

#[cfg(test)]
mod collections;
#[cfg(test)]
mod grammar;
#[cfg(test)]
mod language;
#[cfg(test)]
mod names;
#[cfg(test)]
mod tables;
