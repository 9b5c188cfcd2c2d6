ghost use Rattle.run_theory.specs.SheetTokens.{CountedLaw, SheetTokensLaw};
ghost use Rattle.run_theory.specs.Laws.{GivenLaw, OneAnswerLaw, OneRunLaw, OneTreeLaw, RefusedLaw, SomeAnswerLaw, SomeRunLaw};

/// A sheet counts its tokens, and the tokens of a text are its tokens and bad bytes, and not the end mark.
pub fn sheet_token_laws()
    ensures counted { CountedLaw }
    ensures tokens { SheetTokensLaw }
{}

/// By lawful tables a text has one tree and one answer at most, and it is refuted that it has none.
pub fn run_laws()
    ensures one_tree { OneTreeLaw }
    ensures one { OneRunLaw }
    ensures some { SomeRunLaw }
{}

/// The same of a sheet whose grammar has tables, where none are given.
pub fn answer_laws()
    ensures one { OneAnswerLaw }
    ensures some { SomeAnswerLaw }
{}

/// What is given is given of a sentence, and what is refused is none.
pub fn sentence_laws()
    ensures given { GivenLaw }
    ensures refused { RefusedLaw }
{}
