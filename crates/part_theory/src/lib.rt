//! The parts of a token list that is parsed from unknown contexts: what the moves of all contexts agree on. Definitions and
//! laws alone.
#![tactic(auto)]

ghost use Rattle.part_theory.specs.Moves.{MovesLaw, MovesThenLaw, OneMovesLaw, ShiftsLaw};
ghost use Rattle.part_theory.specs.Parts.{AgreedLaw, FirstPartBoundsLaw, NoneFollowsLaw, OneFirstPartLaw, OneNumberLaw, OnePartsLaw, PartedLaw};

/// The moves of a run: where the machine comes it comes by some, those of two runs from one place are comparable, and each
/// shift takes one token.
pub fn move_laws()
    ensures moves { MovesLaw }
    ensures then { MovesThenLaw }
    ensures one { OneMovesLaw }
    ensures shifts { ShiftsLaw }
{}

/// Two agreed lists of moves are comparable, and an agreed list is the longest where the contexts stop or part after it.
pub fn agreed_laws()
    ensures comparable { AgreedLaw }
    ensures none_follows { NoneFollowsLaw }
    ensures parted { PartedLaw }
{}

/// A first part has one length, which is neither none nor more than the tokens, and a token list has one list of parts.
pub fn part_laws()
    ensures one_first { OneFirstPartLaw }
    ensures bounds { FirstPartBoundsLaw }
    ensures one_list { OnePartsLaw }
    ensures one_number { OneNumberLaw }
{}
