ghost use Rattle.cutting_theory.specs.Laws.{AtLaw, EvenLaw, SegmentTokensLaw};

/// Even bounds are a cutting.
pub fn even_law()
    ensures { EvenLaw }
{}

/// Segments that begin at listed lines are a cutting.
pub fn at_law()
    ensures { AtLaw }
{}

/// The tokens of the segments, one after another, are those of all the lines.
pub fn segment_tokens_law()
    ensures { SegmentTokensLaw }
{}
