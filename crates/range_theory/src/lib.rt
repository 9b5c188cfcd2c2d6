//! The tokens of segments that stand one after another, by the bounds of a cutting: ranges of segments go together, and their tokens are
//! no more and no others than the text's. Definitions and laws alone.
#![tactic(auto)]

ghost use Rattle.range_theory.specs.Laws.{BoundLaw, FewPartsLaw, FewTokensLaw, PartsBothLaw, RangeLinesLaw, RangesJoinLaw, SmallTokensLaw, WholeRangeLaw};

/// Ranges of segments, and the lines between their bounds.
pub fn range_laws()
    ensures bound { BoundLaw }
    ensures join { RangesJoinLaw }
    ensures lines { RangeLinesLaw }
    ensures whole { WholeRangeLaw }
{}

/// The parts of lists of tokens.
pub fn part_laws()
    ensures few { FewPartsLaw }
    ensures both { PartsBothLaw }
{}

/// The tokens of some lines, among those of the whole text.
pub fn token_laws()
    ensures few { FewTokensLaw }
    ensures small { SmallTokensLaw }
{}
