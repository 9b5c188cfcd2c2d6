//! What begins at a place.
ghost use Rattle.std.specs.Prelude.{◌≡◌, ◌+◌, ◌<◌, length, slice_get};
ghost use Rattle.lexeme_theory.specs.Begins.{begin_by_slash, begin_by_percent, begin_by_place, begin_by_single, begin_by_sign, begin_by, begin_at as begin_at_place};

use crate::kinds::{is_bad_outside, is_space, starts_name};
use lexeme_theory::{Begin, Single};

fn by_slash(second: Option<u8>) -> Begin
    ensures { result ≡ begin_by_slash second }
{
    match second {
        Some(b'*') => Begin::BlockComment,
        Some(b'/') => Begin::LineComment,
        _ => Begin::Pattern,
    }
}

fn by_percent(second: Option<u8>) -> Begin
    ensures { result ≡ begin_by_percent second }
{
    match second {
        Some(b'%') => Begin::Mark,
        Some(byte) if starts_name(byte) => Begin::Directive,
        _ => Begin::Nothing,
    }
}

/// A place begins, where a digit comes next.
fn by_place(place: Begin, second: Option<u8>) -> Begin
    ensures { result ≡ begin_by_place place second }
{
    match second {
        Some(byte) if byte.is_ascii_digit() => place,
        _ => Begin::Nothing,
    }
}

fn by_single(byte: u8) -> Begin
    ensures { result ≡ begin_by_single byte }
{
    match byte {
        b':' => Begin::Single(Single::Colon),
        b'|' => Begin::Single(Single::Bar),
        b';' => Begin::Single(Single::Semicolon),
        b'{' => Begin::Single(Single::LeftBrace),
        b'}' => Begin::Single(Single::RightBrace),
        bad if is_bad_outside(bad) => Begin::BadByte,
        _ => Begin::Nothing,
    }
}

fn by_sign(byte: u8, second: Option<u8>) -> Begin
    ensures { result ≡ begin_by_sign byte second }
{
    match byte {
        b'/' => by_slash(second),
        b'%' => by_percent(second),
        b'$' => by_place(Begin::Fold, second),
        b'#' => by_place(Begin::NumberOf, second),
        b'\'' => Begin::Quoted,
        b'"' => Begin::Text,
        _ => by_single(byte),
    }
}

fn by_bytes(byte: u8, second: Option<u8>) -> Begin
    ensures { result ≡ begin_by byte second }
{
    match byte {
        blank if is_space(blank) => Begin::Blank,
        start if starts_name(start) => Begin::Name,
        b'0'..=b'9' => Begin::Number,
        _ => by_sign(byte, second),
    }
}

/// What begins at a place before the end.
pub fn begin_at(bytes: &[u8], at: usize) -> Begin
    requires { at < length bytes.now }
    ensures { result ≡ begin_at_place bytes.now at }
{
    by_bytes(bytes[at], bytes.get(at + 1).copied())
}
