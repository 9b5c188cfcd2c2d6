//! Sets of words.
ghost use Rattle.std.specs.Prelude.{◌≡◌, ℕ, List, [], ◌∷◌, ◌++◌, IfOk, OnOk, not};
ghost use Rattle.outline_checks.specs.WordSets.{has_word, IsSetOf};

use lr_base::NoMemory;
use std::alloc::Global;
use std::collections::HashSet;

/// A set of words.
#[derive(Drop)]
pub struct WordSet<'a> {
    pub words: HashSet<&'a [u8]>,
}

impl<'a> WordSet<'a> {
    /// No word is in it; this takes no memory.
    pub fn new(alloc: Global) -> WordSet<'a>
        ensures { IsSetOf result [] }
    {
        WordSet {
            words: HashSet::new(alloc),
        }
    }

    /// Puts the word in, and says whether it was there before.
    pub fn add(&mut self, word: &'a [u8]) -> Result<bool, NoMemory>
        ensures was { IfOk result (λ was_there. was_there ≡ has_word self.old word.now) }
        ensures more { OnOk result ((words : List (List ℕ)) → IsSetOf self.old words → IsSetOf self.new (words ++ word.now ∷ [])) }
    {
        let is_new = self.words.insert(word)?;
        Ok(!is_new)
    }

    /// Whether the word is in it.
    pub fn has(&self, word: &[u8]) -> bool
        ensures { result ≡ has_word self.now word.now }
    {
        self.words.contains(word)
    }
}
