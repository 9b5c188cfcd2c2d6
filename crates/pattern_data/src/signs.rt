//! The signs of a pattern's text.
ghost use Rattle.std.specs.Prelude.{◌≡◌, ℕ, List, MatchOption, ◌<◌, length, IfSome};
ghost use Rattle.pattern_data.specs.declared.signs.Sign.{Sign};
ghost use Rattle.pattern_data.specs.Classes.{written_byte};
ghost use Rattle.pattern_data.specs.Signs.{kind_of, IsByteSign, IsClassSign, IsSign};

use crate::bits::any_byte;
use crate::byte_set::ByteSet;
use crate::classes::{front_byte, front_class};

/// How often an atom stands.
#[derive(Clone, Copy, Debug, PartialEq, Eq)]
pub enum Repetition {
    /// Any number of times.
    Star,
    /// At least once.
    Plus,
    /// Once, or not at all.
    Opt,
}

/// A set of bytes, or a mark.
#[derive(Clone, Copy, Debug)]
pub enum Sign {
    /// A byte, an escape, `.` or a class.
    Set(ByteSet),
    Open,
    Close,
    Bar,
    Repeat(Repetition),
}

/// What a byte begins.
#[derive(Clone, Copy, Debug)]
pub enum Kind {
    /// A byte for itself, or an escape.
    Byte,
    AnyByte,
    Class,
    Mark(Sign),
    Nothing,
}

fn begins(byte: u8) -> Kind
    ensures { result ≡ kind_of byte }
{
    match byte {
        b'.' => Kind::AnyByte,
        b'[' => Kind::Class,
        b'(' => Kind::Mark(Sign::Open),
        b')' => Kind::Mark(Sign::Close),
        b'|' => Kind::Mark(Sign::Bar),
        b'*' => Kind::Mark(Sign::Repeat(Repetition::Star)),
        b'+' => Kind::Mark(Sign::Repeat(Repetition::Plus)),
        b'?' => Kind::Mark(Sign::Repeat(Repetition::Opt)),
        b']' | b'/' => Kind::Nothing,
        _ => Kind::Byte,
    }
}

/// The set of the one byte that is written at the front.
fn byte_sign(text: &[u8]) -> Option<(Sign, &[u8])>
    ensures front { MatchOption result ((sign : Sign) (rest : List ℕ) → ¬ (IsByteSign (written_byte text.now) sign rest)) (λ front. IsByteSign (written_byte text.now) front.0 front.1.now) }
    ensures shorter { IfSome result (λ front. length front.1.now < length text.now) }
{
    let (byte, rest) = front_byte(text)?;
    let set = ByteSet::only(byte);
    Some((Sign::Set(set), rest))
}

/// The set of the class whose `[` stands before the text.
fn class_sign(text: &[u8]) -> Option<(Sign, &[u8])>
    ensures front { MatchOption result ((sign : Sign) (rest : List ℕ) → ¬ (IsClassSign text.now sign rest)) (λ front. IsClassSign text.now front.0 front.1.now) }
    ensures shorter { IfSome result (λ front. length front.1.now < length text.now) }
{
    match front_class(text) {
        Some((set, rest)) => Some((Sign::Set(set), rest)),
        None => None,
    }
}

/// The sign at the front of a text, and what is left behind it.
pub fn front_sign(text: &[u8]) -> Option<(Sign, &[u8])>
    ensures front { MatchOption result ((sign : Sign) (rest : List ℕ) → ¬ (IsSign text.now sign rest)) (λ front. IsSign text.now front.0 front.1.now) }
    ensures shorter { IfSome result (λ front. length front.1.now < length text.now) }
{
    match text {
        [] => None,
        [byte, behind @ ..] => match begins(*byte) {
            Kind::Byte => byte_sign(text),
            Kind::AnyByte => {
                let set = any_byte();
                Some((Sign::Set(set), behind))
            }
            Kind::Class => class_sign(behind),
            Kind::Mark(mark) => Some((mark, behind)),
            Kind::Nothing => None,
        },
    }
}
