ghost use Rattle.std.specs.Prelude.{◌≡◌, ◌≢◌, ℕ, ◌≤◌, ◌↔◌, IsTrue};
ghost use Rattle.pattern_data.specs.Bytes.{IsByteSet, IsMember, only_byte};
ghost use Rattle.pattern_data.specs.Texts.{is_any};

use std::marker::Model;

/// The number of words that hold one bit for each byte.
pub const WORDS: usize = 4;

/// A set of bytes that isn't empty and doesn't have the line feed.
///
/// Contracts see its four words, and read them by `IsMember`: bit `b % 64` of word `b / 64` says whether byte `b` is
/// in the set.
#[derive(Clone, Copy, Debug, PartialEq, Eq)]
pub struct ByteSet {
    words: [u64; WORDS],
}

impl Model for ByteSet {
    ghost use Rattle.std.specs.Prelude.{ℕ, List};
    ghost use Rattle.pattern_data.specs.Bytes.{IsByteSet};

    ghost Value = { List ℕ };

    ghost view = { λ s. s.words };

    ghost invariant = { λ s. IsByteSet s.words };

    ghost inverse = { λ ws. record { words = ws } };
}

impl ByteSet {
    /// The set that these words say.
    pub fn from_words(words: [u64; WORDS]) -> ByteSet
        requires { IsByteSet words }
        ensures { result ≡ words }
    {
        ByteSet { words }
    }

    /// The set of one byte, which isn't the line feed.
    pub fn only(byte: u8) -> ByteSet
        requires { byte ≢ 10 }
        ensures { result ≡ only_byte byte }
    {
        let mut words = [0; WORDS];
        words[byte as usize / 64] = 1 << (byte % 64);
        ByteSet { words }
    }

    /// Whether the byte is in the set.
    pub fn has(&self, byte: u8) -> bool
        ensures { IsTrue result ↔ IsMember self.now byte }
    {
        byte != b'\n' && self.words[byte as usize / 64] & (1 << (byte % 64)) != 0
    }

    /// Whether the set has all bytes but the line feed.
    pub fn is_any(&self) -> bool
        ensures { result ≡ is_any self.now }
    {
        self.words[0] == !(1 << 10)
            && self.words[1] == u64::MAX
            && self.words[2] == u64::MAX
            && self.words[3] == u64::MAX
    }

    /// The least byte of the set.
    pub fn first(&self) -> u8
        ensures member { IsMember self.now result }
        ensures least { (byte : ℕ) → IsMember self.now byte → result ≤ byte }
    {
        for (index, word) in self.words.iter().enumerate() {
            if *word != 0 {
                return (64 * index + word.trailing_zeros() as usize) as u8;
            }
        }
        unreachable!()
    }
}
