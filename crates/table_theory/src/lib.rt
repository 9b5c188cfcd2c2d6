//! What the items of a state do on a token, the first conflict of a grammar, and the canonical tables of a collection.
//! Definitions and laws alone.
#![tactic(auto)]

ghost use Rattle.table_theory.specs.Deeds.{ItemTotalLaw, ItemTransitiveLaw, ItemIrreflexiveLaw};
ghost use Rattle.table_theory.specs.Conflicts.{FirstConflictLaw, FirstConflictOnceLaw};
ghost use Rattle.table_theory.specs.Clashes.{ClashLaw, FirstClashLaw};
ghost use Rattle.table_theory.specs.Canonical.{CanonicalDeedLaw, CanonicalErrorLaw, CanonicalOnceLaw, CanonicalStepLaw, CanonicalStopLaw, CanonicalViableLaw, CanonicalWalkLaw, NoConflictLaw};

/// Items are in one order.
pub fn item_order_laws()
    ensures total { ItemTotalLaw }
    ensures transitive { ItemTransitiveLaw }
    ensures irreflexive { ItemIrreflexiveLaw }
{}

/// A grammar has one first conflict at most, and it is a conflict.
pub fn conflict_laws()
    ensures once { FirstConflictOnceLaw }
    ensures conflict { FirstConflictLaw }
{}

/// A collection shows whether the grammar has a conflict, and its first.
pub fn clash_laws()
    ensures clash { ClashLaw }
    ensures first { FirstClashLaw }
{}

/// The items and steps of a state give one action on a token, which is an error where no item does anything; and a
/// grammar with canonical tables has no conflict.
pub fn canonical_laws()
    ensures error { CanonicalErrorLaw }
    ensures once { CanonicalOnceLaw }
    ensures no_conflict { NoConflictLaw }
{}

/// Canonical tables lead over a list as the collection does: to a state that does what the valid items of the list do
/// where the list is a viable prefix, and else nowhere.
pub fn canonical_walk_laws()
    ensures step { CanonicalStepLaw }
    ensures walk { CanonicalWalkLaw }
    ensures deed { CanonicalDeedLaw }
    ensures viable { CanonicalViableLaw }
    ensures stop { CanonicalStopLaw }
{}
