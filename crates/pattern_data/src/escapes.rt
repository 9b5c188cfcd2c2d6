//! Bytes as they are written: a byte for itself, or an escape.
ghost use Rattle.std.specs.Prelude.{◌≡◌, ◌<◌, IsTrue, length, IfSome};
ghost use Rattle.std.specs.Option.{option_map};
ghost use Rattle.pattern_data.specs.Escapes.{is_punctuation, is_hex_digit, hex_value, escape_of, front_by_digits, front_of};

/// A byte from 0x21 to 0x7E that is no letter and no digit.
fn is_sign(byte: u8) -> bool
    ensures { result ≡ is_punctuation byte }
{
    matches!(byte, b'!'..=b'/' | b':'..=b'@' | b'['..=b'`' | b'{'..=b'~')
}

/// The byte that a backslash and this byte stand for.
fn escaped(byte: u8) -> Option<u8>
    ensures { result ≡ escape_of byte }
{
    match byte {
        b'n' => Some(b'\n'),
        b't' => Some(b'\t'),
        b'r' => Some(b'\r'),
        sign if is_sign(sign) => Some(sign),
        _ => None,
    }
}

/// The value of a digit of base 16.
fn digit_value(byte: u8) -> u8
    requires { IsTrue (is_hex_digit byte) }
    ensures value { result ≡ hex_value byte }
    ensures small { result < 16 }
{
    match byte {
        b'0'..=b'9' => byte - b'0',
        b'A'..=b'F' => byte - b'A' + 10,
        _ => byte - b'a' + 10,
    }
}

/// The byte that two digits of base 16 at the front say, and what is left.
fn by_digits(text: &[u8]) -> Option<(u8, &[u8])>
    ensures front { option_map (λ front. (front.0, front.1.now)) result ≡ front_by_digits text.now }
    ensures shorter { IfSome result (λ front. length front.1.now < length text.now) }
{
    match text {
        [high, low, rest @ ..] if high.is_ascii_hexdigit() && low.is_ascii_hexdigit() => {
            Some((16 * digit_value(*high) + digit_value(*low), rest))
        }
        _ => None,
    }
}

/// The byte that the front of a text stands for, and what is left: a byte stands for itself, a backslash begins an
/// escape. None where the escape is wrong, and at the end.
pub fn front(text: &[u8]) -> Option<(u8, &[u8])>
    ensures front { option_map (λ front. (front.0, front.1.now)) result ≡ front_of text.now }
    ensures shorter { IfSome result (λ front. length front.1.now < length text.now) }
{
    match text {
        [b'\\', b'x', digits @ ..] => by_digits(digits),
        [b'\\', byte, rest @ ..] => Some((escaped(*byte)?, rest)),
        [b'\\'] | [] => None,
        [byte, rest @ ..] => Some((*byte, rest)),
    }
}
