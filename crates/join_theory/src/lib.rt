//! Two pieces of a parse are joined: the right one is put on the left one. Definitions and laws alone.
#![tactic(auto)]

ghost use Rattle.join_theory.specs.Composing.{StandsComposedLaw, TellsComposedLaw};
ghost use Rattle.join_theory.specs.Floors.{EndLaw, PartLaw, StartLaw, WholeLaw};

/// A piece that is composed of two stands for the tokens of both.
pub fn composing_laws()
    ensures tells { TellsComposedLaw }
    ensures stands { StandsComposedLaw }
{}

/// The right piece's floors are put on the left one, one after the other, and behind them its entries: the pieces compose.
pub fn floor_laws()
    ensures start { StartLaw }
    ensures whole { WholeLaw }
    ensures part { PartLaw }
    ensures end { EndLaw }
{}
