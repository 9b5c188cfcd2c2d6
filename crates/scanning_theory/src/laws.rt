ghost use Rattle.scanning_theory.specs.Laws.{OneLongestLaw, LongestOrNoneLaw, OneListFromLaw, OneListOfLinesLaw, OneListLaw, CuttingLaw, SomeListLaw, RisingStartsLaw, StartsInsideLaw, FirstStartLaw};

/// At one place there is at most one longest match, and never beside no match.
pub fn longest_law()
    ensures one { OneLongestLaw }
    ensures or_none { LongestOrNoneLaw }
{}

/// There is at most one list of tokens: of the rest of a line, of some lines, of a text.
pub fn one_list_law()
    ensures rest { OneListFromLaw }
    ensures lines { OneListOfLinesLaw }
    ensures text { OneListLaw }
{}

/// Tokens of lines one after another are those of all of them.
pub fn cutting_law()
    ensures { CuttingLaw }
{}

/// It is refuted that a text has no list of tokens.
pub fn some_list_law()
    ensures { SomeListLaw }
{}

/// The lines begin at rising places inside the text, the first one at its first byte.
pub fn line_starts_law()
    ensures rising { RisingStartsLaw }
    ensures inside { StartsInsideLaw }
    ensures first { FirstStartLaw }
{}
