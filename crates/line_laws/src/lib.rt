//! The tokens of some lines of a text stand among those of all its lines. Definitions and laws alone.
#![tactic(auto)]

ghost use Rattle.line_laws.specs.Laws.{SplitLaw, WithinLaw};

/// The tokens of lines are those of the first of them and then those of the others.
pub fn split_law()
    ensures { SplitLaw }
{}

/// It is refuted that the tokens of some lines don't stand among those of the whole text.
pub fn within_law()
    ensures { WithinLaw }
{}
