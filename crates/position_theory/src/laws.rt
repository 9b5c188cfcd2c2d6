ghost use Rattle.position_theory.specs.Bounds.{SpellingPositionsLaw};
ghost use Rattle.position_theory.specs.Literals.{LiteralStatesLaw};
ghost use Rattle.position_theory.specs.States.{FrontLaw, MatchLaw, MoreStatesLaw, SameStepLaw, SomeByteLaw, StepLaw};

/// A string reaches a position only where it has a byte.
pub fn some_byte_law()
    ensures { SomeByteLaw }
{}

/// A string with one more byte reaches the positions ahead that read the byte.
pub fn step_law()
    ensures { StepLaw }
{}

/// A pattern has a string that isn't empty exactly where it reaches a position at which the pattern can end.
pub fn match_law()
    ensures { MatchLaw }
{}

/// Strings with the same set have the same set after one more byte, if neither or both are empty.
pub fn same_step_law()
    ensures { SameStepLaw }
{}

/// Where a string reaches a position, so does each front of it that isn't empty.
pub fn front_law()
    ensures { FrontLaw }
{}

/// There are more states than a limit exactly where the strings for the states are more.
pub fn more_states_law()
    ensures { MoreStatesLaw }
{}

/// Literals have no more states than positions, and the start.
pub fn literal_states_law()
    ensures { LiteralStatesLaw }
{}

/// A pattern has no more positions than each of its spellings has bytes.
pub fn spelling_positions_law()
    ensures { SpellingPositionsLaw }
{}
