use sheet_data::Bytes;

/// The word behind a `%`.
#[derive(Clone, Copy, Debug, PartialEq, Eq)]
pub enum Directive {
    /// `%token`.
    Token,
    /// `%skip`.
    Skip,
    /// `%start`.
    Start,
    /// `%declares`.
    Declares,
}

/// A lexeme of one byte.
#[derive(Clone, Copy, Debug, PartialEq, Eq)]
pub enum Single {
    /// `:`.
    Colon,
    /// `|`.
    Bar,
    /// `;`.
    Semicolon,
    /// `{`.
    LeftBrace,
    /// `}`.
    RightBrace,
}

/// A lexeme of a sheet.
#[derive(Debug, Drop)]
pub enum Lexeme {
    /// A letter or `_`, then letters, digits and `_`.
    Name(Bytes),
    /// 1 to 9 decimal digits.
    Number(u32),
    /// `$` and a number.
    Fold(u32),
    /// `#` and a number.
    NumberOf(u32),
    /// `'bytes'`: the bytes that the text between the quotes stands for.
    Quoted(Bytes),
    /// `"bytes"`: the bytes that the text between the quotes stands for.
    Text(Bytes),
    /// `/pattern/`: the text between the slashes, as written.
    Pattern(Bytes),
    /// `%` and a directive's word.
    Directive(Directive),
    /// `%%`.
    Mark,
    Single(Single),
}
