//! Worked rows of the program: what its call answers over files and outputs in memory.
#![tactic(auto)]

#[cfg(test)]
mod checks;
#[cfg(test)]
mod cuttings;
#[cfg(test)]
mod limits;
#[cfg(test)]
mod memory;
#[cfg(test)]
mod pattern_sheets;
#[cfg(test)]
mod program;
#[cfg(test)]
mod runs;
#[cfg(test)]
mod samples;
#[cfg(test)]
mod table_calls;
