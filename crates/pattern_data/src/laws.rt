ghost use Rattle.pattern_data.specs.Laws.{OneByteLaw, LiteralLaw, NoLineFeedLaw, PositionsLaw, OneSpellingLaw, NormalSpellingLaw, NoFeedInSpellingLaw};

/// The set of one byte has that byte and no other.
pub fn one_byte_law()
    ensures { OneByteLaw }
{}

/// A literal matches its bytes and nothing else, and has a position for each byte.
pub fn literal_law()
    ensures matches { LiteralLaw }
    ensures positions { PositionsLaw }
{}

/// No string of a pattern has a line feed.
pub fn no_line_feed_law()
    ensures { NoLineFeedLaw }
{}

/// A text spells one pattern at most.
pub fn one_spelling_law()
    ensures { OneSpellingLaw }
{}

/// The normal spelling of a pattern that some text spells is a spelling of it.
pub fn normal_spelling_law()
    ensures { NormalSpellingLaw }
{}

/// No spelling has a line feed.
pub fn no_feed_in_spelling_law()
    ensures { NoFeedInSpellingLaw }
{}
