ghost use Rattle.std.specs.Prelude.{◌≡◌, ◌<◌, length, All};
ghost use Rattle.grammar_data.specs.TokenSet.{IsTokenSet, has_token};
ghost use Rattle.first_sets.specs.NameFacts.{empty_size_in, first_set_in, names_in, nullable_in};

use grammar_data::{NameId, TokenId};
use lr_base::TokenSet;
use std::marker::Model;

/// What is known of a grammar's names: which are nullable, their empty sizes, and their first tokens.
#[derive(Debug, Drop)]
pub struct Firsts {
    sets: Vec<TokenSet>,
    sizes: Vec<u32>,
}

impl Model for Firsts {
    ghost use Rattle.std.specs.Prelude.{◌≡◌, length, All};
    ghost use Rattle.grammar_data.specs.TokenSet.{IsTokenSet};
    ghost use Rattle.first_sets.specs.NameFacts.{NameFacts as Facts};

    ghost Value = { Facts };

    ghost view = { λ s. record { sets = s.sets.items; sizes = s.sizes.items } };

    ghost invariant = { λ s. (length s.sets.items ≡ length s.sizes.items) × All IsTokenSet s.sets.items };
}

impl Firsts {
    /// The first tokens and the empty sizes of names, name by name.
    pub(crate) fn new(sets: Vec<TokenSet>, sizes: Vec<u32>) -> Firsts
        requires count { length sets.items ≡ length sizes.items }
        requires sets { All IsTokenSet sets.items }
        ensures { result ≡ record { sets = sets.items; sizes = sizes.items } }
    {
        Firsts { sets, sizes }
    }

    /// Whether the name derives the empty token list.
    pub fn nullable(&self, name: NameId) -> bool
        requires { name < names_in self.now }
        ensures { result ≡ nullable_in self.now name }
    {
        self.sizes[name.0 as usize] > 0
    }

    /// Whether some token list that the name derives begins with the token.
    pub fn first_has(&self, name: NameId, token: TokenId) -> bool
        requires { name < names_in self.now }
        ensures { result ≡ has_token (first_set_in self.now name) token }
    {
        self.sets[name.0 as usize].has(token)
    }

    /// The least number of inner nodes of a tree of the name with an empty yield; `None` where the name isn't nullable.
    pub fn empty_size(&self, name: NameId) -> Option<u32>
        requires { name < names_in self.now }
        ensures { result ≡ empty_size_in self.now name }
    {
        match self.sizes[name.0 as usize] {
            0 => None,
            size => Some(size),
        }
    }

    /// The tokens with which the token lists that the name derives begin.
    pub fn first_set(&self, name: NameId) -> TokenSet
        requires { name < names_in self.now }
        ensures tokens { result ≡ first_set_in self.now name }
        ensures set { IsTokenSet result }
    {
        self.sets[name.0 as usize]
    }
}
