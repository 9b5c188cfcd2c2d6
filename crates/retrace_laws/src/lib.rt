//! Maps over entries of a piece that aren't kept, and are found again when they are wanted. Definitions and laws alone.
#![tactic(auto)]

ghost use Rattle.retrace_laws.specs.Laws.{RetracedLeafLaw, RetracedMapsLaw, RetracedOpenLaw, RetracedPieceLaw};

/// Steps from a map below, with alive starts alone, lead to the maps over the entries, restricted to the alive starts; and a
/// piece that has them in place of its own is as good as it was.
pub fn retrace_laws()
    ensures maps { RetracedMapsLaw }
    ensures piece { RetracedPieceLaw }
    ensures open_piece { RetracedOpenLaw }
    ensures leaf { RetracedLeafLaw }
{}
