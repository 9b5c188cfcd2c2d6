ghost use Rattle.std.specs.Prelude.{◌≡◌, ◌<◌, ◌≤◌, ◌+◌, ◌^◌, Some, All, IfOk, length};
ghost use Rattle.collection_data.specs.Collection.{column_of};
ghost use Rattle.lr_base.specs.declared.limits.TheConstants.{NAMES, TOKENS};
ghost use Rattle.lr_base.specs.IsGrammar.{IsSymbolOf};
ghost use Rattle.grammar_data.specs.TokenSet.{IsTokenSet};
ghost use Rattle.first_sets.specs.NameFacts.{AreFirsts, names_in};
ghost use Rattle.item_sets.specs.Spots.{AreSpots, IsRestBy, IsSpotAt};

use first_sets::Firsts;
use lr_base::{Grammar, Sym, TokenSet};
use std::alloc::{AllocError, Global};
use std::marker::Model;

/// What stands behind a dot: the symbol, where that stands in a row of steps, the tokens that are first in the symbols
/// behind it, and whether all of those are nullable names.
#[derive(Clone, Copy, Debug)]
pub struct Spot {
    pub symbol: Sym,
    pub column: u32,
    pub first: TokenSet,
    pub passes: bool,
}

/// Some spots in a row. Contracts see their list.
#[derive(Debug, Drop)]
pub struct Spots {
    pub spots: Vec<Spot>,
}

impl Model for Spots {
    ghost use Rattle.std.specs.Prelude.{List};
    ghost use Rattle.item_sets.specs.declared.spot.Spot.{Spot as Place};

    ghost Value = { List Place };

    ghost view = { λ s. s.spots.items };
}

/// The first tokens of some symbols, and whether the symbols are nullable names alone.
fn rest(firsts: &Firsts, symbols: &[Sym]) -> (TokenSet, bool)
    requires { All (IsSymbolOf TOKENS (names_in firsts.now)) symbols.now }
    ensures rest { IsRestBy firsts.now symbols.now result.0 result.1 }
    ensures set { IsTokenSet result.0 }
{
    let mut first = TokenSet::empty();
    for symbol in symbols {
        match *symbol {
            Sym::Token(token) => {
                first.insert(token);
                return (first, false);
            }
            Sym::Name(name) => {
                first.union(&firsts.first_set(name));
                if !firsts.nullable(name) {
                    return (first, false);
                }
            }
        }
    }
    (first, true)
}

/// Where in a state's row a symbol of the grammar stands.
fn column_in(symbol: Sym, tokens: u32, names: u32) -> u32
    requires few { tokens + names < 2 ^ 32 }
    requires symbol { IsSymbolOf tokens names symbol }
    ensures { column_of tokens names symbol ≡ Some result }
{
    match symbol {
        Sym::Token(token) => token.0,
        Sym::Name(name) => tokens + name.0,
    }
}

/// The spot of a dot in a right side.
fn spot_at(grammar: &Grammar, firsts: &Firsts, right: &[Sym], dot: usize) -> Spot
    requires facts { AreFirsts grammar.now firsts.now }
    requires symbols { All (IsSymbolOf grammar.now.tokens grammar.now.names) right.now }
    requires few { (grammar.now.tokens ≤ TOKENS) × (grammar.now.names ≤ NAMES) }
    requires within { dot < length right.now }
    ensures { IsSpotAt grammar.now right.now dot result }
{
    let column = column_in(right[dot], grammar.tokens(), grammar.names());
    let (first, passes) = rest(firsts, &right[dot + 1..]);
    Spot {
        symbol: right[dot],
        column,
        first,
        passes,
    }
}

/// The spots of a right side.
pub fn spots_of(
    alloc: Global,
    grammar: &Grammar,
    firsts: &Firsts,
    right: &[Sym],
) -> Result<Spots, AllocError>
    requires facts { AreFirsts grammar.now firsts.now }
    requires symbols { All (IsSymbolOf grammar.now.tokens grammar.now.names) right.now }
    requires few { (grammar.now.tokens ≤ TOKENS) × (grammar.now.names ≤ NAMES) }
    ensures { IfOk result (λ spots. AreSpots grammar.now right.now spots) }
{
    let mut spots = Vec::with_capacity(alloc, right.len())?;
    for dot in 0..right.len() {
        spots.push(spot_at(grammar, firsts, right, dot))?;
    }
    Ok(Spots { spots })
}
