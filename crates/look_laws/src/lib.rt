//! A look at a token, as code makes it: the alive part of the last map, the starts restricted to it, and the deaths put behind
//! the faults. Definitions and laws alone.
#![tactic(auto)]

ghost use Rattle.look_laws.specs.Deaths.{DeathsLaw, LooksByDeathsLaw, LookStartLaw, OpenLooksByDeathsLaw, StuckPartLaw};

/// Where the deaths of a map are put behind the faults of a floor, and its starts are restricted to the alive ones, the token
/// is looked at.
pub fn look_laws()
    ensures deaths { DeathsLaw }
    ensures looks { LooksByDeathsLaw }
    ensures open_looks { OpenLooksByDeathsLaw }
{}

/// After a look some start is alive, or the leaf has the first part; where it is stuck it has the first part.
pub fn look_part_laws()
    ensures start { LookStartLaw }
    ensures stuck { StuckPartLaw }
{}
