use crate::lexeme::Lexeme;

/// Why neither a blank nor a lexeme stands at a place.
#[derive(Clone, Copy, Debug, PartialEq, Eq)]
pub enum FaultKind {
    /// A byte that may not stand there.
    BadByte,
    /// The bytes are no lexeme.
    Syntax,
}

/// What stands at a place; `next` is the place behind it.
#[derive(Debug, Drop)]
pub enum Found {
    /// One blank, or one comment.
    Blank { next: usize },
    Lexeme { lexeme: Lexeme, next: usize },
    Fault(FaultKind),
}
