//! A grammar sheet as it is written: its declarations and rules, with the lines where a fault may stand, and the faults
//! that a sheet may have.
#![tactic(auto)]

mod fault;
mod outline;
mod rules;

pub use fault::{LimitKind, SheetFault};
pub use outline::{Declaration, Outline, PlaceUse, Word};
pub use rules::{Alternative, RuleGroup, Symbol, TemplatePart};
