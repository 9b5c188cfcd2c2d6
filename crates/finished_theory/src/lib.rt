//! Finished trees of a sheet over a text, in a store. Definitions and laws alone.
#![tactic(auto)]

ghost use Rattle.finished_theory.specs.FinishedTrees.{FinishedLaw, OneFinishedLaw};

/// A root has one finished tree at most, and a tree of the start over the text's tokens that is shown is finished.
pub fn finished_laws()
    ensures one { OneFinishedLaw }
    ensures finished { FinishedLaw }
{}
