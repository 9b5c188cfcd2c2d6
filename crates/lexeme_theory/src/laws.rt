ghost use Rattle.lexeme_theory.specs.Laws.{OneFoundLaw, SomeFoundLaw, BlankEndLaw, LexemeEndLaw, OneSpellingLaw, OneReadingLaw, JoinLaw, BlanksLaw, EndLineLaw, PrintedLaw};

/// A place has one blank, lexeme or fault at most.
pub fn one_found_law()
    ensures { OneFoundLaw }
{}

/// Each place before the end has a blank, a lexeme or a fault.
pub fn some_found_law()
    ensures { SomeFoundLaw }
{}

/// A blank or a lexeme ends behind its beginning, and no further than the bytes.
pub fn ends_law()
    ensures blank { BlankEndLaw }
    ensures lexeme { LexemeEndLaw }
{}

/// A text stands for one list of bytes at most.
pub fn one_spelling_law()
    ensures { OneSpellingLaw }
{}

/// The lexemes between two places are one list.
pub fn one_reading_law()
    ensures { OneReadingLaw }
{}

/// Lexemes one after another are those of the whole way, and blanks alone have none.
pub fn join_law()
    ensures join { JoinLaw }
    ensures blanks { BlanksLaw }
{}

/// The end of the bytes stands on their last line.
pub fn end_line_law()
    ensures { EndLineLaw }
{}

/// What is printed of bytes between quotes stands for these bytes.
pub fn printed_law()
    ensures { PrintedLaw }
{}
