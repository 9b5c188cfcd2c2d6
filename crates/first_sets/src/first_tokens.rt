ghost use Rattle.std.specs.Prelude.{◌≡◌, ◌↔◌, ℕ, ◌<◌, ◌≤◌, length, All, Contains, IfOk, IsTrue, MatchBool};
ghost use Rattle.lr_base.specs.declared.limits.TheConstants.{SYMBOLS};
ghost use Rattle.lr_base.specs.IsGrammar.{IsGrammar, IsSymbolOf};
ghost use Rattle.grammar_data.specs.TokenSet.{IsTokenSet, has_token};
ghost use Rattle.grammar_theory.specs.FirstTokens.{FirstHas};
ghost use Rattle.first_sets.specs.Openings.{AreReaders, Begins, IsFilled, IsFilledBy, IsOpeningOf, PassesOn, set_at};

use crate::opening::Opening;
use crate::relation::{Relation, numbers_below};
use grammar_data::Sym;
use lr_base::{Grammar, NoMemory, TokenSet};
use std::alloc::Global;

/// The tokens that a symbol begins with: a token with itself, a name with those of its set.
fn tokens_of(symbol: Sym, sets: &[TokenSet]) -> TokenSet
    requires range { IsSymbolOf 256 (length sets.now) symbol }
    requires sets { All IsTokenSet sets.now }
    ensures tokens { (a : ℕ) → IsTrue (has_token result a) ↔ Begins sets.now symbol a }
    ensures set { IsTokenSet result }
{
    match symbol {
        Sym::Token(token) => {
            let mut tokens = TokenSet::empty();
            tokens.insert(token);
            tokens
        }
        Sym::Name(name) => sets[name.0 as usize],
    }
}

/// Adds the tokens of an opening's symbol to the set of its left side; answers whether one of them was new.
fn fill(sets: &mut Vec<TokenSet>, opening: &Opening) -> bool
    requires range { IsOpeningOf (length sets.old.items) opening.now }
    requires sets { All IsTokenSet sets.old.items }
    ensures { MatchBool result
        (IsFilledBy opening.now sets.old.items sets.new.items)
        (IsFilled sets.new.items opening.now × (sets.new.items ≡ sets.old.items)) }
{
    let tokens = tokens_of(opening.symbol, sets);
    sets[opening.left.0 as usize].union(&tokens)
}

/// The first tokens of all names. An opening is looked at once, and again each time the set of its symbol grows: at
/// most 250 times, so at most a million times in all.
pub fn first_tokens(
    alloc: Global,
    grammar: &Grammar,
    openings: &[Opening],
    readers: &Relation,
) -> Result<Vec<TokenSet>, NoMemory>
    requires range { All (IsOpeningOf grammar.now.names) openings.now }
    requires few { length openings.now ≤ SYMBOLS }
    requires passes { PassesOn grammar.now openings.now }
    requires readers { AreReaders openings.now readers.now.pairs }
    requires keys { readers.now.keys ≡ grammar.now.names }
    ensures sound { IfOk result (λ sets. (n a : ℕ) → IsTrue (has_token (set_at sets.items n) a) → FirstHas grammar.now n a) }
    ensures filled { IfOk result (λ sets. All (IsFilled sets.items) openings.now) }
    ensures sets { IfOk result (λ sets. All IsTokenSet sets.items) }
    ensures count { IfOk result (λ sets. length sets.items ≡ grammar.now.names) }
{
    let mut sets = vec![in alloc; TokenSet::empty(); grammar.names() as usize]?;
    let mut pending = numbers_below(alloc, openings.len() as u32)?;
    while let Some(place) = pending.pop() {
        let opening = &openings[place as usize];
        if fill(&mut sets, opening) {
            readers.push_all(opening.left.0, &mut pending)?;
        }
    }
    Ok(sets)
}
