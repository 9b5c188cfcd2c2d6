ghost use Rattle.std.specs.Prelude.{◌≡◌, ◌↔◌, ℕ, ◌<◌, length, All, IfOk, IsTrue, MatchBool};
ghost use Rattle.first_sets.specs.KnownNames.{AreUses, HasList, IsClosedAt, IsKnownSymbol, IsMarkedBy, is_known};

use crate::relation::{Relation, numbers_below};
use grammar_data::{RuleId, Sym};
use lr_base::{Grammar, NoMemory};
use std::alloc::Global;

/// Which token lists are looked for.
#[derive(Clone, Copy, Debug, PartialEq, Eq)]
pub enum Lists {
    /// Any list.
    Any,
    /// The empty list.
    Empty,
}

/// Whether the symbol has such a list: a token among any, a name where it is known.
pub fn is_known_symbol(symbol: Sym, known: &[bool], lists: Lists) -> bool
    ensures { IsTrue result ↔ IsKnownSymbol known.now lists symbol }
{
    match symbol {
        Sym::Token(_) => lists == Lists::Any,
        Sym::Name(name) => known.get(name.0 as usize).copied().unwrap_or(false),
    }
}

pub fn are_known(right: &[Sym], known: &[bool], lists: Lists) -> bool
    ensures { IsTrue result ↔ All (IsKnownSymbol known.now lists) right.now }
{
    right
        .iter()
        .all(|symbol| is_known_symbol(*symbol, known, lists))
}

/// Marks the left side of a rule as known if it isn't, and all symbols of the right side are; answers whether it did.
fn mark_left(grammar: &Grammar, rule: RuleId, lists: Lists, known: &mut Vec<bool>) -> bool
    requires rule { rule < length grammar.now.rules }
    requires names { length known.old.items ≡ grammar.now.names }
    ensures { MatchBool result
        (IsMarkedBy grammar.now.rules rule lists known.old.items known.new.items)
        (IsClosedAt grammar.now.rules rule lists known.new.items × (known.new.items ≡ known.old.items)) }
{
    let left = grammar.left(rule).0 as usize;
    if known[left] || !are_known(grammar.right(rule), known, lists) {
        return false;
    }
    known[left] = true;
    true
}

/// The names that derive a token list of this kind. Each rule is tried once, and again for each of its names that becomes known: at most
/// 5,000 tries of 20 symbols.
pub fn known_names(
    alloc: Global,
    grammar: &Grammar,
    uses: &Relation,
    lists: Lists,
) -> Result<Vec<bool>, NoMemory>
    requires uses { AreUses grammar.now.rules uses.now.pairs }
    requires keys { uses.now.keys ≡ grammar.now.names }
    ensures known { IfOk result (λ known. (n : ℕ) → IsTrue (is_known known.items n) ↔ HasList grammar.now lists n) }
    ensures count { IfOk result (λ known. length known.items ≡ grammar.now.names) }
{
    let mut known = vec![in alloc; false; grammar.names() as usize]?;
    let mut pending = numbers_below(alloc, grammar.rule_count())?;
    while let Some(rule) = pending.pop() {
        if mark_left(grammar, RuleId(rule), lists, &mut known) {
            uses.push_all(grammar.left(RuleId(rule)).0, &mut pending)?;
        }
    }
    Ok(known)
}
