//! The parts of a token list by the canonical tables of a grammar: they are the same by any two, and it is refuted that there
//! are none. Definitions and laws alone.
#![tactic(auto)]

ghost use Rattle.part_laws.specs.Laws.{AlikePartsLaw, CanonicalAlikeLaw, CanonicalPartsLaw, SomePartsLaw};

/// Two canonical tables of a grammar are alike, and by alike tables a token list has the same number of parts.
pub fn alike_laws()
    ensures canonical { CanonicalAlikeLaw }
    ensures parts { AlikePartsLaw }
    ensures both { CanonicalPartsLaw }
{}

/// By lawful tables it is refuted that a token list has no number of parts.
pub fn some_parts_law()
    ensures { SomePartsLaw }
{}
