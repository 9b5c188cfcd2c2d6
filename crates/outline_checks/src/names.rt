//! What the names of a sheet are.
ghost use Rattle.std.specs.Prelude.{◌≡◌, ◌↔◌, IsTrue, false};
ghost use Rattle.outline_checks.specs.Kinds.{is_token_name, is_left_side};

use crate::word_set::WordSet;

/// The names of the tokens, and those that have a rule.
#[derive(Drop)]
pub struct Names<'a> {
    pub tokens: WordSet<'a>,
    pub left_sides: WordSet<'a>,
}

impl<'a> Names<'a> {
    /// Whether the word is a declared token.
    pub fn is_token(&self, word: &[u8]) -> bool
        ensures { result ≡ is_token_name self.now word.now }
    {
        self.tokens.has(word)
    }

    /// Whether the word has a rule.
    pub fn has_rule(&self, word: &[u8]) -> bool
        ensures { result ≡ is_left_side self.now word.now }
    {
        self.left_sides.has(word)
    }

    /// Whether the word is neither a token nor has a rule.
    pub fn is_unknown(&self, word: &[u8]) -> bool
        ensures { IsTrue result ↔ ((is_token_name self.now word.now ≡ false) × (is_left_side self.now word.now ≡ false)) }
    {
        !self.is_token(word) && !self.has_rule(word)
    }
}
