//! The rules of each name.
ghost use Rattle.std.specs.Prelude.{◌≡◌, ℕ, length, slice_get, Some, IfOk};
ghost use Rattle.std.specs.Global.{Vec as Numbers};
ghost use Rattle.sample_theory.specs.Choices.{rules_of};

use grammar_data::RuleId;
use lr_base::{Grammar, NoMemory};
use std::alloc::Global;

/// For each name the numbers of its rules, rising.
pub fn rules_by_name(alloc: Global, grammar: &Grammar) -> Result<Vec<Vec<RuleId>>, NoMemory>
    ensures size { IfOk result (λ lists. length lists.items ≡ grammar.now.names) }
    ensures lists { IfOk result (λ lists. (n : ℕ) (list : Numbers ℕ) → slice_get lists.items n ≡ Some list → list.items ≡ rules_of grammar.now.rules n) }
{
    let mut lists = Vec::new(alloc);
    for _ in 0..grammar.names() {
        lists.push(Vec::new(alloc))?;
    }
    for rule in 0..grammar.rule_count() {
        let rule = RuleId(rule);
        lists[grammar.left(rule).0 as usize].push(rule)?;
    }
    Ok(lists)
}
