//! Sets of bytes in the making: a bit for each byte, whatever it is.
ghost use Rattle.std.specs.Prelude.{◌≡◌, ℕ, ◌+◌, ◌<◌, Bool, ◌||◌, ◌==◌, not, List, MatchOption};
ghost use Rattle.pattern_data.specs.Sets.{has_bit, IsSetOf, IsAnyByte};
ghost use Rattle.pattern_data.specs.Classes.{in_range};

use crate::byte_set::{ByteSet, WORDS};
use crate::classes::ByteRange;

/// Puts a byte among those of the words.
fn insert(words: &mut [u64; WORDS], byte: u8)
    ensures { (other : ℕ) → has_bit words.new other ≡ ((other == byte) || has_bit words.old other) }
{
    words[byte as usize / 64] |= 1 << (byte % 64);
}

/// Puts the bytes of a range among those of the words.
pub fn insert_range(words: &mut [u64; WORDS], range: ByteRange)
    ensures { (byte : ℕ) → has_bit words.new byte ≡ (in_range byte range || has_bit words.old byte) }
{
    for byte in range.low as usize..range.high as usize + 1 {
        insert(words, byte as u8);
    }
}

/// The bytes that aren't among those of the words.
pub fn others(words: [u64; WORDS]) -> [u64; WORDS]
    ensures { (byte : ℕ) → byte < 256 → has_bit result byte ≡ not (has_bit words byte) }
{
    [!words[0], !words[1], !words[2], !words[3]]
}

/// The set of the bytes of the words, but never of the line feed; none where there are no others.
pub fn set_of_bits(words: &[u64; WORDS]) -> Option<ByteSet>
    ensures { (has : ℕ → Bool) → ((byte : ℕ) → byte < 256 → has_bit words.now byte ≡ has byte) → MatchOption result ((set : List ℕ) → ¬ (IsSetOf has set)) (λ set. IsSetOf has set) }
{
    let words = [words[0] & !(1 << 10), words[1], words[2], words[3]];
    if words == [0; WORDS] {
        return None;
    }
    Some(ByteSet::from_words(words))
}

/// The set of all bytes but the line feed.
pub fn any_byte() -> ByteSet
    ensures { IsAnyByte result }
{
    ByteSet::from_words([!(1 << 10), u64::MAX, u64::MAX, u64::MAX])
}
