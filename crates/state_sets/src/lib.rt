//! Finite maps from states to states, for parsing from unknown contexts: what each state that may stand below leads to.
#![tactic(auto)]

ghost use Rattle.state_sets.specs.Classes.{ClassLaw};

mod agreeing;
mod arrow;
mod building;
mod choosing;
mod images;
mod making;
mod places;
mod spreading;

pub use arrow::Arrow;
pub use making::shift_starts;
pub use map_theory::Agree;

/// The targets of the classes of a map are its targets, each once.
pub fn class_laws()
    ensures { ClassLaw }
{}
