//! The steps by which a piece is made, on one context: the moves that the piece stands for, one more with each step.
//! Definitions and laws alone.
#![tactic(auto)]

ghost use Rattle.arm_laws.specs.Arms.{FloorOpenedLaw, LookLaw, NextLaw, OpenedLaw, ReduceLaw, ShiftLaw};
ghost use Rattle.arm_laws.specs.Did.{DidTellsLaw};

/// What a piece does by moves it tells.
pub fn did_laws()
    ensures tells { DidTellsLaw }
{}

/// A piece is opened with a token, the next token is looked at, and it is shifted.
pub fn token_laws()
    ensures opened { OpenedLaw }
    ensures next { NextLaw }
    ensures look { LookLaw }
    ensures shift { ShiftLaw }
{}

/// A reduction takes entries of the piece, or all of them and opens a floor.
pub fn reduction_laws()
    ensures within { ReduceLaw }
    ensures floor_opened { FloorOpenedLaw }
{}
