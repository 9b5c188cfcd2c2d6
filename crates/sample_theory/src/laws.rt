ghost use Rattle.sample_theory.specs.Choices.{ChoiceLaw, OneChoiceLaw, SomeChoiceLaw};
ghost use Rattle.sample_theory.specs.ClosingRules.{HeightLaw, OneClosingRuleLaw, SomeClosingRuleLaw};
ghost use Rattle.sample_theory.specs.Samples.{OneSampleLaw, SomeSampleLaw, TextLaw, TokensLaw};
ghost use Rattle.sample_theory.specs.ShortestWords.{OneShortestLaw, SomeShortestLaw};
ghost use Rattle.sample_theory.specs.WordNumbers.{NumberLaw};

/// The numbers of byte strings have the order of the words.
pub fn number_law()
    ensures { NumberLaw }
{}

/// A rank has one shortest word at most, and it is refuted that a rank with a word has none.
pub fn shortest_word_laws()
    ensures one { OneShortestLaw }
    ensures some { SomeShortestLaw }
{}

/// Symbols close within a bound where trees of them are no higher; a name has one closing rule at most, and it is refuted
/// that a productive name has none.
pub fn closing_rule_laws()
    ensures height { HeightLaw }
    ensures one { OneClosingRuleLaw }
    ensures some { SomeClosingRuleLaw }
{}

/// The tokens that numbers choose are one list, which is a sentence; and there is one where names have closing rules.
pub fn choice_laws()
    ensures one { OneChoiceLaw }
    ensures sentence { ChoiceLaw }
    ensures some { SomeChoiceLaw }
{}

/// There is one answer for a number and a size, and it is refuted that there is none where all names are productive.
pub fn sample_laws()
    ensures one { OneSampleLaw }
    ensures some { SomeSampleLaw }
{}

/// The tokens of words, each on a line of its own, are those of the words; so those of a sample text are the chosen ones,
/// and a sentence.
pub fn text_laws()
    ensures tokens { TokensLaw }
    ensures text { TextLaw }
{}
