ghost use Rattle.std.specs.Prelude.{◌≡◌, ◌↔◌, ℕ, ◌<◌, ◌≤◌, length, Contains, IfOk, IsTrue, MatchOption};
ghost use Rattle.lr_base.specs.declared.limits.TheConstants.{NAMES};
ghost use Rattle.lr_base.specs.IsGrammar.{IsGrammar};
ghost use Rattle.grammar_theory.specs.declared.limits.TheConstants.{EMPTY_NODES};
ghost use Rattle.grammar_theory.specs.EmptyNames.{AddsUp, IsNullable, IsSizedBelow};
ghost use Rattle.first_sets.specs.EmptySizes.{AreEmptyRules, AreSized, IsLeastUnsized, IsRound, IsSizedBy, size_in, symbol_size_in};
ghost use Rattle.first_sets.specs.KnownNames.{is_known};

use crate::known_names::{Lists, are_known};
use grammar_data::{NameId, RuleId, Sym};
use grammar_theory::EMPTY_NODES;
use lr_base::{Grammar, NoMemory};
use std::alloc::Global;

/// The numbers of the rules whose right sides are nullable names alone.
fn empty_rules(alloc: Global, grammar: &Grammar, nullable: &[bool]) -> Result<Vec<u32>, NoMemory>
    ensures { IfOk result (λ numbers. AreEmptyRules grammar.now.rules nullable.now numbers.items) }
{
    let mut numbers = Vec::new(alloc);
    for (number, rule) in grammar.rules().iter().enumerate() {
        if are_known(&rule.right, nullable, Lists::Empty) {
            numbers.push(number as u32)?;
        }
    }
    Ok(numbers)
}

fn symbol_size(symbol: Sym, sizes: &[u32]) -> u32
    ensures { result ≡ symbol_size_in sizes.now symbol }
{
    match symbol {
        Sym::Token(_) => 0,
        Sym::Name(name) => sizes.get(name.0 as usize).copied().unwrap_or(0),
    }
}

/// Whether the symbols are names alone whose sizes add up to `total`.
fn adds_up(right: &[Sym], sizes: &[u32], total: u32) -> bool
    ensures { IsTrue result ↔ AddsUp (size_in sizes.now) right.now total }
{
    let mut rest = total;
    for symbol in right {
        let size = symbol_size(*symbol, sizes);
        if size == 0 || size > rest {
            return false;
        }
        rest -= size;
    }
    rest == 0
}

/// Sizes the left side of a rule, if it has no size and the sizes of the right side add up to `total`.
fn size_left(grammar: &Grammar, rule: RuleId, total: u32, sizes: &mut Vec<u32>)
    requires rule { rule < length grammar.now.rules }
    requires names { length sizes.old.items ≡ grammar.now.names }
    requires total { total < EMPTY_NODES }
    ensures sized { IsSizedBy grammar.now.rules rule total sizes.old.items sizes.new.items }
    ensures names { length sizes.new.items ≡ grammar.now.names }
{
    let left = grammar.left(rule).0 as usize;
    if sizes[left] == 0 && adds_up(grammar.right(rule), sizes, total) {
        sizes[left] = total + 1;
    }
}

/// Sizes the names whose size is one more than `total`: those with no size and a right side whose sizes add up to it.
fn size_round(grammar: &Grammar, numbers: &[u32], total: u32, sizes: &mut Vec<u32>)
    requires grammar { IsGrammar grammar.now }
    requires rules { (r : ℕ) → Contains numbers.now r → r < length grammar.now.rules }
    requires names { length sizes.old.items ≡ grammar.now.names }
    requires total { total < EMPTY_NODES }
    ensures round { IsRound grammar.now numbers.now total sizes.old.items sizes.new.items }
    ensures names { length sizes.new.items ≡ grammar.now.names }
{
    for rule in numbers {
        size_left(grammar, RuleId(*rule), total, sizes);
    }
}

/// The least nullable name that has no size.
pub fn least_unsized(nullable: &[bool], sizes: &[u32]) -> Option<NameId>
    requires few { length nullable.now ≤ NAMES }
    requires count { length sizes.now ≡ length nullable.now }
    ensures { MatchOption result
        (AreSized nullable.now sizes.now (length nullable.now))
        (IsLeastUnsized nullable.now sizes.now) }
{
    for name in 0..nullable.len() {
        if nullable[name] && sizes[name] == 0 {
            return Some(NameId(name as u32));
        }
    }
    None
}

/// The empty sizes that are at most 1,000, and 0 for all other names. The k-th round sizes the names with size k, until
/// all nullable names are sized: at most 1,000 rounds over the rules whose right sides are nullable names alone, so at
/// most 4 million symbols.
pub fn empty_sizes(
    alloc: Global,
    grammar: &Grammar,
    nullable: &[bool],
) -> Result<Vec<u32>, NoMemory>
    requires grammar { IsGrammar grammar.now }
    requires count { length nullable.now ≡ grammar.now.names }
    requires nullable { (n : ℕ) → IsTrue (is_known nullable.now n) ↔ IsNullable grammar.now n }
    ensures sizes { IfOk result (λ sizes. IsSizedBelow grammar.now 1001 (size_in sizes.items)) }
    ensures count { IfOk result (λ sizes. length sizes.items ≡ grammar.now.names) }
{
    let numbers = empty_rules(alloc, grammar, nullable)?;
    let mut sizes = vec![in alloc; 0; grammar.names() as usize]?;
    for total in 0..EMPTY_NODES {
        match least_unsized(nullable, &sizes) {
            None => return Ok(sizes),
            Some(_) => size_round(grammar, &numbers, total, &mut sizes),
        }
    }
    Ok(sizes)
}
