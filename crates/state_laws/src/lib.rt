//! A grammar whose states are few has the list of their leading words, and a first conflict where it has one. No test
//! decides which lists are viable, so it is refuted that there is none. Definitions and laws alone.
#![tactic(auto)]

ghost use Rattle.state_laws.specs.Laws.{SomeStatesLaw, SomeConflictLaw};

/// It is refuted that a grammar with few states has no list of their leading words, and that one with a conflict has no
/// first.
pub fn state_existence_laws()
    ensures states { SomeStatesLaw }
    ensures conflict { SomeConflictLaw }
{}
