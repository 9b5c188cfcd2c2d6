//! The numbers of symbols.
ghost use Rattle.std.specs.Prelude.{◌≡◌, ◌≤◌, true, length, map, drop, if◌then◌else◌};
ghost use Rattle.grammar_data.specs.declared.rule.Sym.TheVariants.{Token as token_symbol, Name as name_symbol};
ghost use Rattle.outline_theory.specs.Numbering.{is_one_of, index_of, symbol_by};
ghost use Rattle.outline_numbers.specs.Symbols.{AreNumbers, lists_in};
ghost use Rattle.numbering_theory.specs.KnownWords.{IsKnown, IsKnownName, unnamed_in};

use crate::vocabulary::Vocabulary;
use lr_base::{NameId, Sym, TokenId};
use outline_data::Symbol;

/// The words that have numbers: the names of the declared tokens and the literals, which are tokens, and the names of the
/// grammar.
#[derive(Drop)]
pub struct Numbers<'a> {
    pub tokens: Vocabulary<'a>,
    pub literals: Vocabulary<'a>,
    pub names: Vocabulary<'a>,
}

/// The words behind so many.
fn words_behind<'b, 'a>(words: &'b [&'a [u8]], count: usize) -> &'b [&'a [u8]]
    requires { count ≤ length words.now }
    ensures { result.now ≡ drop count words.now }
{
    &words[count..]
}

impl<'a> Numbers<'a> {
    /// The literals without a name.
    pub fn unnamed(&self) -> &[&'a [u8]]
        requires { length (lists_in self.now).tokens ≤ length (lists_in self.now).literals }
        ensures { map (λ word. word.now) result.now ≡ unnamed_in (lists_in self.now) }
    {
        words_behind(&self.literals.words, self.tokens.len())
    }

    /// The number of a name of the grammar.
    pub fn name(&self, word: &[u8]) -> NameId
        requires numbers { AreNumbers self.now }
        requires known { is_one_of (lists_in self.now).names word.now ≡ true }
        ensures { result ≡ index_of (lists_in self.now).names word.now }
    {
        match self.names.place_of(word) {
            Some(place) => NameId(place as u32),
            None => unreachable!(),
        }
    }

    /// The token or the name that a word names.
    fn named(&self, word: &[u8]) -> Sym
        requires numbers { AreNumbers self.now }
        requires known { IsKnownName (lists_in self.now) word.now }
        ensures { result ≡ (if is_one_of (lists_in self.now).tokens word.now then token_symbol (index_of (lists_in self.now).tokens word.now)
            else name_symbol (index_of (lists_in self.now).names word.now)) }
    {
        match self.tokens.place_of(word) {
            Some(place) => Sym::Token(TokenId(place as u32)),
            None => Sym::Name(self.name(word)),
        }
    }

    /// The token of a literal.
    fn literal(&self, word: &[u8]) -> TokenId
        requires numbers { AreNumbers self.now }
        requires known { is_one_of (lists_in self.now).literals word.now ≡ true }
        ensures { result ≡ index_of (lists_in self.now).literals word.now }
    {
        match self.literals.place_of(word) {
            Some(place) => TokenId(place as u32),
            None => unreachable!(),
        }
    }

    /// The token or the name that a symbol is.
    pub fn symbol(&self, symbol: &Symbol) -> Sym
        requires numbers { AreNumbers self.now }
        requires known { IsKnown (lists_in self.now) symbol.now }
        ensures { result ≡ symbol_by (lists_in self.now) symbol.now }
    {
        match symbol {
            Symbol::Name(word) => self.named(word.bytes.as_slice()),
            Symbol::Quoted(word) => Sym::Token(self.literal(word.bytes.as_slice())),
        }
    }
}
