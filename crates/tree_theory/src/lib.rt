//! Trees under a store, whose hidden kids are supplied, and walks over them. Definitions and laws alone.
#![tactic(auto)]

ghost use Rattle.tree_theory.specs.Stores.{GrowLaw, OneShownLaw, RefitLaw};
ghost use Rattle.tree_theory.specs.Walks.{OneWalkLaw, WalkLaw};

/// A kid shows one tree at most, and a store that keeps its nodes, grows, or has its hidden kids filled, shows the same.
pub fn tree_laws()
    ensures one_shown { OneShownLaw }
    ensures refit { RefitLaw }
    ensures grow { GrowLaw }
{}

/// A kid has one walk at most, and the walk of a whole tree has its yield and its nodes.
pub fn walk_laws()
    ensures one_walk { OneWalkLaw }
    ensures walk { WalkLaw }
{}
