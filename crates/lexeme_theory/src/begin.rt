use crate::lexeme::Single;

/// What begins at a place, by the byte there and the one behind it.
#[derive(Clone, Copy, Debug, PartialEq, Eq)]
pub enum Begin {
    /// A space, a tab, a carriage return or a line feed.
    Blank,
    /// `//`.
    LineComment,
    /// `/*`.
    BlockComment,
    Name,
    Number,
    /// `$` before a digit.
    Fold,
    /// `#` before a digit.
    NumberOf,
    /// `'`.
    Quoted,
    /// `"`.
    Text,
    /// `/` before anything else.
    Pattern,
    /// `%` before the beginning of a name.
    Directive,
    /// `%%`.
    Mark,
    Single(Single),
    /// A byte that may stand in comments, or in texts, alone.
    BadByte,
    /// No lexeme.
    Nothing,
}
