//! The walk over the entries of a piece as it grows: its tokens, its floors' nodes, and that each node is used once.
//! Definitions and laws alone.
#![tactic(auto)]

ghost use Rattle.walk_laws.specs.Laws.{AddsMoreLaw, FloorWalkLaw, LookedWalkLaw, MadeLaw, OpenedWalkLaw, ReducedWalkLaw, ShiftedWalkLaw};

/// A piece has its walk from its first token on, and keeps it with each step by which it grows.
pub fn step_laws()
    ensures opened { OpenedWalkLaw }
    ensures looked { LookedWalkLaw }
    ensures shifted { ShiftedWalkLaw }
    ensures reduced { ReducedWalkLaw }
    ensures floor_opened { FloorWalkLaw }
    ensures adds_more { AddsMoreLaw }
{}

/// A piece with its walk, exact floors and exact maps is well made.
pub fn made_laws()
    ensures made { MadeLaw }
{}
