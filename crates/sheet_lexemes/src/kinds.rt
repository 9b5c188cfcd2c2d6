//! The kinds of bytes.
ghost use Rattle.std.specs.Prelude.{◌≡◌};
ghost use Rattle.lexeme_theory.specs.SheetBytes.{is_name_start, is_digit, is_name_byte, is_blank, is_bad_in_text, is_bad};

/// A letter or `_`.
pub fn starts_name(byte: u8) -> bool
    ensures { result ≡ is_name_start byte }
{
    byte.is_ascii_alphabetic() || byte == b'_'
}

/// A letter, a digit or `_`.
pub fn continues_name(byte: u8) -> bool
    ensures { result ≡ is_name_byte byte }
{
    starts_name(byte) || byte.is_ascii_digit()
}

/// A space, a tab, a carriage return or a line feed.
pub fn is_space(byte: u8) -> bool
    ensures { result ≡ is_blank byte }
{
    matches!(byte, b' ' | b'\t' | b'\r' | b'\n')
}

/// A byte that is bad in a text between two of its closing byte.
pub fn is_bad_within(byte: u8) -> bool
    ensures { result ≡ is_bad_in_text byte }
{
    byte == 0x7F || (byte < b' ' && !is_space(byte))
}

/// A byte that is bad outside of comments and of texts.
pub fn is_bad_outside(byte: u8) -> bool
    ensures { result ≡ is_bad byte }
{
    is_bad_within(byte) || byte >= 0x80
}
