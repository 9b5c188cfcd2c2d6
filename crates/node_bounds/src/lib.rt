//! The bound on the inner nodes of a tree that is the only one with its yield. Definitions and a law alone.
#![tactic(auto)]

ghost use Rattle.node_bounds.specs.NodeBounds.{NodeBoundLaw};

/// The inner nodes of a tree are bounded by the grammar and the number of its tokens.
pub fn node_bound_laws()
    ensures bound { NodeBoundLaw }
{}
