//! The leaf rule: a piece that is made of tokens from left to right, step by step, stands for them, and its tokens are the
//! first part of those that are left. Definitions and laws alone.
#![tactic(auto)]

ghost use Rattle.leaf_laws.specs.Closing.{ClosesLaw, LastPartLaw, NonePartLaw, SeveralPartLaw, StandsLaw};
ghost use Rattle.leaf_laws.specs.Laws.{LooksLaw, NextTokenLaw, OpensFloorLaw, OpensLaw, ShiftsLaw, TakesAllLaw, TakesFreshLaw, TakesSomeLaw, WideLaw};
ghost use Rattle.leaf_laws.specs.OpenPieces.{LeafOpenLaw, MadeOpenLaw, OpenFloorLaw, OpenLooksLaw, OpenStandsLaw, OpenTakesAllLaw, OpenTakesFreshLaw, OpenTakesSomeLaw, OpenWideLaw};

/// A leaf is one from its first token on, and each alive start has a state over it.
pub fn leaf_laws()
    ensures opens { OpensLaw }
    ensures wide { WideLaw }
{}

/// It stays one where a token is looked at and shifted, and where a reduction takes entries or opens a floor.
pub fn step_laws()
    ensures next { NextTokenLaw }
    ensures looks { LooksLaw }
    ensures shifts { ShiftsLaw }
    ensures takes_some { TakesSomeLaw }
    ensures takes_fresh { TakesFreshLaw }
    ensures takes_all { TakesAllLaw }
    ensures opens_floor { OpensFloorLaw }
{}

/// Where it is closed its tokens are the first part, and it stands for them.
pub fn closing_laws()
    ensures none { NonePartLaw }
    ensures several { SeveralPartLaw }
    ensures last { LastPartLaw }
    ensures closes { ClosesLaw }
    ensures stands { StandsLaw }
{}

/// A leaf is an open piece, and a well made piece that stands for its tokens is one, under whatever follows it; it is looked at
/// and reduced as a leaf is.
pub fn open_laws()
    ensures leaf { LeafOpenLaw }
    ensures made { MadeOpenLaw }
    ensures wide { OpenWideLaw }
    ensures looks { OpenLooksLaw }
    ensures takes_some { OpenTakesSomeLaw }
    ensures takes_fresh { OpenTakesFreshLaw }
    ensures takes_all { OpenTakesAllLaw }
    ensures opens_floor { OpenFloorLaw }
    ensures stands { OpenStandsLaw }
{}
