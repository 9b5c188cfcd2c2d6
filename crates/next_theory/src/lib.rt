//! What may come next behind a list of symbols, and where a list of tokens goes wrong. Definitions and laws alone.
#![tactic(auto)]

ghost use Rattle.next_theory.specs.ComingNext.{NextBackLaw, NextCloseLaw, NextDeedLaw, NextOpenLaw, NextSentenceLaw};
ghost use Rattle.next_theory.specs.GoingOn.{GoingFrontLaw, GoingRangeLaw, NoWrongPlaceLaw, OneExpectedLaw, OneWrongPlaceLaw};

/// What comes next behind symbols is what valid items do something on, and what their tokens go on with.
pub fn next_laws()
    ensures back { NextBackLaw }
    ensures deed { NextDeedLaw }
    ensures opening { NextOpenLaw }
    ensures closing { NextCloseLaw }
    ensures sentence { NextSentenceLaw }
{}

/// Fronts of what goes on go on; a list has one first wrong place at most, a sentence none, and there is one list of
/// expected tokens.
pub fn going_on_laws()
    ensures range { GoingRangeLaw }
    ensures front { GoingFrontLaw }
    ensures one_wrong_place { OneWrongPlaceLaw }
    ensures no_wrong_place { NoWrongPlaceLaw }
    ensures one_expected { OneExpectedLaw }
{}
