//! What a join does where a floor of the next piece lands, and behind the last floor, in the forms in which code has it: faults
//! put behind others, maps that may still have starts that have erred. Definitions and laws alone.
#![tactic(auto)]

ghost use Rattle.landing_laws.specs.Behind.{JoinPutLaw, LooseOpenLaw};
ghost use Rattle.landing_laws.specs.Carrying.{CarryLaw, CarryNoneLaw, JoinWideLaw};

/// The faults of a floor are carried back to the starts over whose states they come; and between two floors each alive start
/// has a state over the entries.
pub fn carry_laws()
    ensures carry { CarryLaw }
    ensures none { CarryNoneLaw }
    ensures wide { JoinWideLaw }
{}

/// The next piece's entries are put behind those that are left: the joined piece, and the open piece that code has of it.
pub fn behind_laws()
    ensures loose { LooseOpenLaw }
    ensures put { JoinPutLaw }
{}
