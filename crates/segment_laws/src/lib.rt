//! The parse of a segment by the leaf rule: closed pieces and an open one, what each step does, and what stands at the end.
//! Definitions and laws alone.
#![tactic(auto)]

ghost use Rattle.segment_laws.specs.Laws.{BeginsLaw, ClosedLaw, ClosesParsingLaw, EndsParsingLaw, LooksParsingLaw, NoTokensLaw, NumberLaw, OpensFloorParsingLaw, ShiftsParsingLaw, TakesAllParsingLaw, TakesSomeParsingLaw};

/// The parse begins with a piece of the first token, and goes on with each step of its open piece.
pub fn step_laws()
    ensures begins { BeginsLaw }
    ensures looks { LooksParsingLaw }
    ensures shifts { ShiftsParsingLaw }
    ensures takes_some { TakesSomeParsingLaw }
    ensures takes_all { TakesAllParsingLaw }
    ensures opens_floor { OpensFloorParsingLaw }
{}

/// The open piece is closed, and at the end there are the pieces of the segment, each with the tokens of its part.
pub fn end_laws()
    ensures no_tokens { NoTokensLaw }
    ensures closed { ClosedLaw }
    ensures closes { ClosesParsingLaw }
    ensures ends { EndsParsingLaw }
    ensures number { NumberLaw }
{}
