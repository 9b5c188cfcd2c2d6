//! Closed pieces without the maps of their entries, and that the maps follow. Definitions and laws alone.
#![tactic(auto)]

ghost use Rattle.bare_theory.specs.Laws.{OneMapsLaw};

/// Pieces of token lists that are the same without their maps are the same.
pub fn bare_laws()
    ensures one_maps { OneMapsLaw }
{}
