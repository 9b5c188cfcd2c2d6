//! Floors and maps of a piece as it grows from left to right: what stays exact where starts err, where entries are pushed and
//! taken off, and where a floor is opened. Definitions and laws alone.
#![tactic(auto)]

ghost use Rattle.level_laws.specs.Laws.{ExactMapsLaw, FloorPieceLaw, LastMapLaw, LeadingLaw, LookMapLaw, LookStartsLaw, LookedPieceLaw, MoreNodesLaw, MovedFloorsLaw, MovedLevelLaw, NewLevelLaw, OpenedPieceLaw, PushedPieceLaw, ShiftingLaw, TakenFreshLaw, TakenPieceLaw, WholePieceLaw};

/// A floor stays exact where starts err, and a new one is exact. A look leaves the alive starts, in the last map too.
pub fn level_laws()
    ensures moved { MovedLevelLaw }
    ensures floors { MovedFloorsLaw }
    ensures new { NewLevelLaw }
    ensures shifting { ShiftingLaw }
    ensures leading { LeadingLaw }
    ensures look_starts { LookStartsLaw }
    ensures look_map { LookMapLaw }
{}

/// A piece of one token grows, and goes on growing with each step of its parse; its maps are exact at the end.
pub fn growing_laws()
    ensures opened { OpenedPieceLaw }
    ensures looked { LookedPieceLaw }
    ensures pushed { PushedPieceLaw }
    ensures taken { TakenPieceLaw }
    ensures taken_fresh { TakenFreshLaw }
    ensures whole { WholePieceLaw }
    ensures floor { FloorPieceLaw }
    ensures more_nodes { MoreNodesLaw }
    ensures last_map { LastMapLaw }
    ensures exact { ExactMapsLaw }
{}
