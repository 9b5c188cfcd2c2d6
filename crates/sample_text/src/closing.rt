//! The closing rules of a grammar's names.
ghost use Rattle.std.specs.Prelude.{◌≡◌, ℕ, ◌+◌, ◌<◌, true, false, None, Some, All, List, length, slice_get, slice_set, IfOk, IsTrue, ◌↔◌};
ghost use Rattle.grammar_data.specs.declared.rule.Sym.{Sym as Symbol};
ghost use Rattle.grammar_theory.specs.UsefulNames.{AllProductive};
ghost use Rattle.lr_base.specs.IsGrammar.{IsGrammar};
ghost use Rattle.sample_text.specs.Closings.{AllAreBelow, HasHeight, HaveClosings, IsRound, IsSymbolClosed, IsTried};

use grammar_data::{RuleId, Sym};
use lr_base::{Grammar, NoMemory};
use std::alloc::Global;

/// The closing rule of a name, and the least height of the name's trees.
#[derive(Clone, Copy, Debug)]
pub struct Closing {
    pub rule: RuleId,
    pub height: u32,
}

/// Whether a symbol is a token, or a name that is closed by trees that are lower than this.
fn is_closed(symbol: Sym, closings: &[Option<Closing>], height: u32) -> bool
    ensures { IsTrue result ↔ IsSymbolClosed closings.now height symbol }
{
    match symbol {
        Sym::Token(_) => true,
        Sym::Name(name) => match closings.get(name.0 as usize) {
            Some(Some(closing)) => closing.height < height,
            Some(None) | None => false,
        },
    }
}

/// Whether each symbol of a right side is closed.
fn are_closed(right: &[Sym], closings: &[Option<Closing>], height: u32) -> bool
    ensures { IsTrue result ↔ All (IsSymbolClosed closings.now height) right.now }
{
    right
        .iter()
        .all(|symbol| is_closed(*symbol, closings, height))
}

/// Closes the left side of a rule, unless it is closed or a name of the right side isn't closed by lower trees.
fn close_by(
    grammar: &Grammar,
    closings: &mut Vec<Option<Closing>>,
    rule: RuleId,
    height: u32,
) -> bool
    requires rule { rule < length grammar.now.rules }
    requires size { length closings.old.items ≡ grammar.now.names }
    ensures tried { (n : ℕ) (right : List Symbol) → slice_get grammar.now.rules rule ≡ Some (n, right) → IsTried height rule n right closings.old.items closings.new.items }
    ensures none { result ≡ false → closings.new.items ≡ closings.old.items }
    ensures some { result ≡ true → HasHeight closings.new.items height }
{
    let left = grammar.left(rule).0 as usize;
    if closings[left].is_some() {
        return false;
    }
    if !are_closed(grammar.right(rule), closings, height) {
        return false;
    }
    closings[left] = Some(Closing { rule, height });
    true
}

/// Closes the names that have trees of this height and none that are lower; whether there are some.
fn close_round(grammar: &Grammar, closings: &mut Vec<Option<Closing>>, height: u32) -> bool
    requires grammar { IsGrammar grammar.now }
    requires some { 0 < height }
    requires round { IsRound grammar.now height 0 closings.old.items }
    requires below { AllAreBelow closings.old.items height }
    ensures round { IsRound grammar.now height (length grammar.now.rules) closings.new.items }
    ensures none { result ≡ false → AllAreBelow closings.new.items height }
    ensures some { result ≡ true → HasHeight closings.new.items height }
{
    let mut more = false;
    for rule in 0..grammar.rule_count() {
        if close_by(grammar, closings, RuleId(rule), height) {
            more = true;
        }
    }
    more
}

/// The closing rule of each name: the rule of its least trees, and of several such rules the first. Heights are looked at
/// one after another until none closes a name.
pub fn closing_rules(alloc: Global, grammar: &Grammar) -> Result<Vec<Option<Closing>>, NoMemory>
    requires { AllProductive grammar.now }
    ensures size { IfOk result (λ closings. length closings.items ≡ grammar.now.names) }
    ensures closings { IfOk result (λ closings. HaveClosings grammar.now closings.items) }
{
    grammar.holds();
    let mut closings = vec![in alloc; None; grammar.names() as usize]?;
    for height in 1..u32::MAX {
        if !close_round(grammar, &mut closings, height) {
            return Ok(closings);
        }
    }
    Err(NoMemory)
}
