//! Finite maps from states to states: what they tell, how one comes from another, and what their targets do on a token.
//! Definitions and laws alone.
#![tactic(auto)]

ghost use Rattle.map_theory.specs.Laws.{FollowedLaw, KeepLaw, OneAgreementLaw, OneMapLaw, SomeAgreementLaw, WalkLaw};

mod agree;

pub use agree::Agree;

/// A map of a function is one list, and each map is followed by one.
pub fn map_laws()
    ensures one { OneMapLaw }
    ensures followed { FollowedLaw }
    ensures keep { KeepLaw }
{}

/// A walk along two lists is a walk along the one and then along the other.
pub fn walk_laws()
    ensures { WalkLaw }
{}

/// On each token the targets of a map agree in exactly one of four ways.
pub fn agreement_laws()
    ensures some { SomeAgreementLaw }
    ensures one { OneAgreementLaw }
{}
