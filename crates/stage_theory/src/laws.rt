ghost use Rattle.stage_theory.specs.Laws.{BeginsLaw, StuckLaw, WholeLaw, EndedLaw};

/// The stages know which lexemes begin a sheet, which are a whole one, and which have ended it.
pub fn stage_laws()
    ensures begins { BeginsLaw }
    ensures stuck { StuckLaw }
    ensures whole { WholeLaw }
    ensures ended { EndedLaw }
{}
