//! Pieces of a parse whose left context is not known: what they are, what they stand for, when they are well made, and
//! when a list of them is pieces of a token list. Definitions and laws alone.
#![tactic(auto)]

ghost use Rattle.piece_theory.specs.Laws.{FallsOrFailsLaw, FloorsLaw, LeavesMoreLaw, MadeMoreLaw, NoPieceLaw, OneFallLaw, OneFaultLaw, OnePutLaw, OneYieldLaw, StackedLaw, StandsMoreLaw};

/// A piece, applied to a stack, has one result at most.
pub fn result_laws()
    ensures one_fall { OneFallLaw }
    ensures one_fault { OneFaultLaw }
    ensures falls_or_fails { FallsOrFailsLaw }
    ensures one_put { OnePutLaw }
{}

/// Floors are the same from the first up and from the last down.
pub fn floor_laws()
    ensures stacked { StackedLaw }
    ensures floors { FloorsLaw }
{}

/// In a store that has more nodes a piece is what it was.
pub fn store_laws()
    ensures leaves { LeavesMoreLaw }
    ensures stands { StandsMoreLaw }
    ensures made { MadeMoreLaw }
{}

/// A piece has one list of tokens, and no tokens have no piece.
pub fn token_laws()
    ensures one_yield { OneYieldLaw }
    ensures no_piece { NoPieceLaw }
{}
