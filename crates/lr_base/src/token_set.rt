ghost use Rattle.std.specs.Prelude.{◌≡◌, ◌≢◌, ◌↔◌, ℕ, ◌+◌, ◌*◌, ◌/◌, ◌%◌, ◌^◌, ◌<◌, ◌==◌, ◌||◌, true, false, List, length, slice_index, bit_or, IsTrue, MatchBool};
ghost use Rattle.grammar_data.specs.TokenSet.{AreEqualByMembers, IsTokenSet, has_token};

use grammar_data::TokenId;
use std::marker::Model;

/// How many words a set has; each has the bits of 64 tokens.
const WORDS: usize = 4;

/// A set of tokens below 256. Contracts see its words, and read them by `has_token`.
#[derive(Clone, Copy, Debug, PartialEq, Eq, PartialOrd, Ord, Hash)]
pub struct TokenSet {
    words: [u64; WORDS],
}

impl Model for TokenSet {
    ghost use Rattle.std.specs.Prelude.{ℕ, List};
    ghost use Rattle.grammar_data.specs.TokenSet.{IsTokenSet};

    ghost Value = { List ℕ };

    ghost view = { λ s. s.words };

    ghost invariant = { λ s. IsTokenSet s.words };

    ghost inverse = { λ words. record { words = words } };
}

/// Joins words to words, bit by bit, and answers whether that changed any.
fn join_words(words: &mut [u64; WORDS], others: &[u64; WORDS]) -> bool
    ensures joined { (k : ℕ) → k < 4 → slice_index words.new k ≡ bit_or (slice_index words.old k) (slice_index others.now k) }
    ensures changed { MatchBool result
        ((k : ℕ) × (k < 4) × (slice_index words.new k ≢ slice_index words.old k))
        (words.new ≡ words.old) }
{
    let mut changed = false;
    for place in 0..WORDS {
        let joined = words[place] | others[place];
        if joined != words[place] {
            words[place] = joined;
            changed = true;
        }
    }
    changed
}

impl TokenSet {
    /// The set of no tokens.
    pub fn empty() -> TokenSet
        ensures none { (a : ℕ) → has_token result a ≡ false }
        ensures set { IsTokenSet result }
    {
        TokenSet { words: [0; WORDS] }
    }

    /// Whether the token is in the set.
    pub fn has(&self, token: TokenId) -> bool
        ensures has { result ≡ has_token self.now token }
        ensures set { IsTokenSet self.now }
    {
        match self.words.get(token.0 as usize / 64) {
            Some(word) => (*word >> (token.0 % 64)) & 1 == 1,
            None => false,
        }
    }

    /// Whether the set has no token.
    pub fn is_empty(&self) -> bool
        ensures { IsTrue result ↔ ((a : ℕ) → has_token self.now a ≡ false) }
    {
        self.words == [0; WORDS]
    }

    /// The words of the set: the bit of token `a` is number `a % 64` of word `a / 64`.
    pub fn words(&self) -> [u64; WORDS]
        ensures words { result ≡ self.now }
        ensures set { IsTokenSet result }
    {
        self.words
    }

    /// Adds the token.
    pub fn insert(&mut self, token: TokenId)
        requires { token < 256 }
        ensures members { (a : ℕ) → has_token self.new a ≡ ((a == token) || has_token self.old a) }
        ensures set { IsTokenSet self.new }
    {
        self.words[token.0 as usize / 64] |= 1 << (token.0 % 64);
    }

    /// Adds the tokens of another set, and answers whether one of them was new.
    pub fn union(&mut self, other: &TokenSet) -> bool
        ensures members { (a : ℕ) → has_token self.new a ≡ (has_token self.old a || has_token other.now a) }
        ensures grew { MatchBool result
            ((a : ℕ) × (has_token self.old a ≡ false) × (has_token other.now a ≡ true))
            (self.new ≡ self.old) }
        ensures set { IsTokenSet self.new }
    {
        join_words(&mut self.words, &other.words)
    }
}

/// Sets with the same members are equal.
pub fn equal_by_members()
    ensures { AreEqualByMembers }
{}
