//! The patterns of a sheet's tokens, and the scanner that finds their longest match.
#![tactic(auto)]

mod ahead;
mod building;
mod condition;
mod fault;
mod masking;
mod scanner;
mod states;
mod walk;

pub use condition::can_build;
pub use dead_ends::DeadEnds;
pub use fault::ScannerFault;
pub use pattern_data::{ByteSet, Meaning, Pattern, PatternFault};
pub use scanner::Scanner;
pub use scanning_theory::{PATTERNS, POSITIONS, STATES};
