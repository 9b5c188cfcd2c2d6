//! Classes: how a set of bytes is written by its members.
ghost use Rattle.std.specs.Prelude.{◌≡◌, ◌≢◌, ◌∷◌, ℕ, List, MatchOption, ◌<◌, length, IfSome, ◌≤◌};
ghost use Rattle.std.specs.Option.{option_map};
ghost use Rattle.std.specs.List.{list_any};
ghost use Rattle.pattern_data.specs.declared.classes.ByteRange.{ByteRange};
ghost use Rattle.pattern_data.specs.Sets.{has_bit, IsSetOf};
ghost use Rattle.pattern_data.specs.Classes.{written_byte, class_byte, member_from, member_of, range_to, AreMembers, IsClass, in_range, is_negated, members_text, class_has};

use crate::bits::{insert_range, others, set_of_bits};
use crate::byte_set::{ByteSet, WORDS};
use crate::escapes::front;

/// The bytes from one up to another, both among them.
#[derive(Clone, Copy, Debug)]
pub struct ByteRange {
    pub low: u8,
    pub high: u8,
}

/// The byte that the front of a pattern's text stands for, and what is left behind it. The line feed never stands there.
pub fn front_byte(text: &[u8]) -> Option<(u8, &[u8])>
    ensures front { option_map (λ front. (front.0, front.1.now)) result ≡ written_byte text.now }
    ensures shorter { IfSome result (λ front. length front.1.now < length text.now) }
{
    let (byte, behind) = front(text)?;
    if byte == b'\n' {
        return None;
    }
    Some((byte, behind))
}

/// The same inside a class, where `]` stands for no byte.
fn front_of_class(text: &[u8]) -> Option<(u8, &[u8])>
    ensures front { option_map (λ front. (front.0, front.1.now)) result ≡ class_byte text.now }
    ensures shorter { IfSome result (λ front. length front.1.now < length text.now) }
{
    if let [b']', ..] = text {
        return None;
    }
    front_byte(text)
}

/// The range from a byte up to the one at the front.
fn up_to(low: u8, text: &[u8]) -> Option<(ByteRange, &[u8])>
    ensures front { option_map (λ front. (front.0, front.1.now)) result ≡ range_to low (class_byte text.now) }
    ensures shorter { IfSome result (λ front. length front.1.now < length text.now) }
{
    let (high, behind) = front_of_class(text)?;
    if high < low {
        return None;
    }
    Some((ByteRange { low, high }, behind))
}

/// The member that begins with this byte, which stands before the text.
fn from_byte(low: u8, text: &[u8]) -> Option<(ByteRange, &[u8])>
    ensures front { option_map (λ front. (front.0, front.1.now)) result ≡ member_from low text.now }
    ensures shorter { IfSome result (λ front. length front.1.now ≤ length text.now) }
{
    match text {
        [b'-', next, ..] if *next != b']' => up_to(low, &text[1..]),
        _ => Some((ByteRange { low, high: low }, text)),
    }
}

/// The member at the front of a text.
fn front_member(text: &[u8]) -> Option<(ByteRange, &[u8])>
    ensures front { option_map (λ front. (front.0, front.1.now)) result ≡ member_of text.now }
    ensures shorter { IfSome result (λ front. length front.1.now < length text.now) }
{
    let (byte, behind) = front_of_class(text)?;
    from_byte(byte, behind)
}

/// What is left behind a `]` at the front.
fn behind_bracket(text: &[u8]) -> Option<&[u8]>
    ensures { MatchOption result ((rest : List ℕ) → text.now ≢ 93 ∷ rest) (λ rest. text.now ≡ 93 ∷ rest.now) }
{
    match text {
        [b']', rest @ ..] => Some(rest),
        _ => None,
    }
}

/// The bytes of the members up to the `]`, and what is left behind it.
fn front_members(text: &[u8]) -> Option<([u64; WORDS], &[u8])>
    ensures front { MatchOption result ((ranges : List ByteRange) (rest : List ℕ) → ¬ (AreMembers text.now ranges rest)) (λ front. (ranges : List ByteRange) × AreMembers text.now ranges front.1.now × ((byte : ℕ) → has_bit front.0 byte ≡ list_any (in_range byte) ranges)) }
    ensures shorter { IfSome result (λ front. length front.1.now < length text.now) }
{
    let mut words = [0; WORDS];
    let mut left = text;
    loop {
        let Some((range, behind)) = front_member(left) else {
            return None;
        };
        insert_range(&mut words, range);
        if let Some(rest) = behind_bracket(behind) {
            return Some((words, rest));
        }
        left = behind;
    }
}

/// Whether a `^` stands at the front, and what is left behind it.
fn front_caret(text: &[u8]) -> (bool, &[u8])
    ensures negated { result.0 ≡ is_negated text.now }
    ensures members { result.1.now ≡ members_text text.now }
    ensures no_longer { length result.1.now ≤ length text.now }
{
    match text {
        [b'^', members @ ..] => (true, members),
        _ => (false, text),
    }
}

/// The set of the bytes of the words, or of the others.
fn set_of(words: [u64; WORDS], is_negated: bool) -> Option<ByteSet>
    ensures { (ranges : List ByteRange) → ((byte : ℕ) → has_bit words byte ≡ list_any (in_range byte) ranges) → MatchOption result ((set : List ℕ) → ¬ (IsSetOf (class_has is_negated ranges) set)) (λ set. IsSetOf (class_has is_negated ranges) set) }
{
    if is_negated {
        set_of_bits(&others(words))
    } else {
        set_of_bits(&words)
    }
}

/// The set of the class whose `[` stands before the text, and what is left behind its `]`.
pub fn front_class(text: &[u8]) -> Option<(ByteSet, &[u8])>
    ensures front { MatchOption result ((words rest : List ℕ) → ¬ (IsClass text.now words rest)) (λ front. IsClass text.now front.0 front.1.now) }
    ensures shorter { IfSome result (λ front. length front.1.now < length text.now) }
{
    let (is_negated, members) = front_caret(text);
    let (words, rest) = front_members(members)?;
    let set = set_of(words, is_negated)?;
    Some((set, rest))
}
