//! Words by their places.
ghost use Rattle.std.specs.Prelude.{◌≡◌, ◌++◌, [], ◌∷◌, OnOk, length};
ghost use Rattle.outline_numbers.specs.Vocabularies.{IsVocabulary, words_of};
ghost use Rattle.numbering_theory.specs.Places.{with_word, IsFound};

use lr_base::NoMemory;
use std::alloc::Global;
use std::collections::HashMap;

/// Words in the order in which they were put in, each with its first place among them.
#[derive(Drop)]
pub struct Vocabulary<'a> {
    pub words: Vec<&'a [u8]>,
    pub places: HashMap<&'a [u8], usize>,
}

impl<'a> Vocabulary<'a> {
    pub fn new(alloc: Global) -> Vocabulary<'a>
        ensures words { words_of result ≡ [] }
        ensures places { IsVocabulary result }
    {
        Vocabulary {
            words: Vec::new(alloc),
            places: HashMap::new(alloc),
        }
    }

    /// Puts the word behind the others.
    pub fn push(&mut self, word: &'a [u8]) -> Result<(), NoMemory>
        requires { IsVocabulary self.old }
        ensures words { OnOk result (words_of self.new ≡ words_of self.old ++ word.now ∷ []) }
        ensures places { OnOk result (IsVocabulary self.new) }
    {
        let next = self.words.len();
        self.words.push(word)?;
        if self.places.get(word).is_none() {
            self.places.insert(word, next)?;
        }
        Ok(())
    }

    /// Puts the word behind the others, where it is none of them.
    pub fn note(&mut self, word: &'a [u8]) -> Result<(), NoMemory>
        requires { IsVocabulary self.old }
        ensures words { OnOk result (words_of self.new ≡ with_word (words_of self.old) word.now) }
        ensures places { OnOk result (IsVocabulary self.new) }
    {
        match self.place_of(word) {
            Some(_) => Ok(()),
            None => self.push(word),
        }
    }

    /// The word's first place, where it has one.
    pub fn place_of(&self, word: &[u8]) -> Option<usize>
        requires { IsVocabulary self.now }
        ensures { IsFound (words_of self.now) word.now result }
    {
        self.places.get(word).copied()
    }

    /// How many words there are.
    pub fn len(&self) -> usize
        ensures { result ≡ length (words_of self.now) }
    {
        self.words.len()
    }
}
