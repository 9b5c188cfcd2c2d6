//! Where the alive starts of a piece come from: each is what the floors leave of some context. Definitions and laws alone.
#![tactic(auto)]

ghost use Rattle.context_laws.specs.Contexts.{AlongLaw, DownLaw, EndLaw, SizeLaw};

/// Tables of their size lead on from their states alone, and where they lead along symbols entries can be pushed.
pub fn along_laws()
    ensures size { SizeLaw }
    ensures along { AlongLaw }
{}

/// Each alive start of the last floor is on top of what the floors leave of some context.
pub fn context_laws()
    ensures down { DownLaw }
    ensures end { EndLaw }
{}
