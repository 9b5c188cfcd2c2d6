ghost use Rattle.tally_theory.specs.Asked.{OneAnswerLaw, SomeAnswerLaw};
ghost use Rattle.tally_theory.specs.Laws.{CutLaw, GivenLaw, OneCutLaw, OneReportLaw, RefusedLaw, SomeCutLaw, SomeReportLaw};

/// A text is cut in one way, and so that the bounds are a cutting.
pub fn cut_laws()
    ensures cutting { CutLaw }
    ensures one { OneCutLaw }
    ensures some { SomeCutLaw }
{}

/// A text has one report or one refusal at most, and it is refuted that it has none.
pub fn report_laws()
    ensures one { OneReportLaw }
    ensures some { SomeReportLaw }
{}

/// A report is given exactly where a run gives something, and what else is said is what a run says.
pub fn run_laws()
    ensures given { GivenLaw }
    ensures refused { RefusedLaw }
{}

/// What is asked of a text has one answer at most, and what can be asked not none.
pub fn answer_laws()
    ensures one { OneAnswerLaw }
    ensures some { SomeAnswerLaw }
{}
