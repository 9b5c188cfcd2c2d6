ghost use Rattle.std.specs.Prelude.{◌≡◌, ◌↔◌, ℕ, length, IfOk, IsTrue};
ghost use Rattle.lr_base.specs.IsGrammar.{IsGrammar};
ghost use Rattle.grammar_theory.specs.UsefulNames.{IsReachable};
ghost use Rattle.first_sets.specs.KnownNames.{AreMentions, is_known};

use crate::relation::Relation;
use lr_base::{Grammar, NoMemory};
use std::alloc::Global;

/// The names that stand in some list of symbols that is derived from the start. Each name of a right side is looked at
/// once at most: 4,000 steps.
pub fn reached_names(
    alloc: Global,
    grammar: &Grammar,
    mentions: &Relation,
) -> Result<Vec<bool>, NoMemory>
    requires grammar { IsGrammar grammar.now }
    requires mentions { AreMentions grammar.now.rules mentions.now.pairs }
    requires keys { mentions.now.keys ≡ grammar.now.names }
    ensures known { IfOk result (λ known. (n : ℕ) → IsTrue (is_known known.items n) ↔ IsReachable grammar.now n) }
    ensures count { IfOk result (λ known. length known.items ≡ grammar.now.names) }
{
    let mut known = vec![in alloc; false; grammar.names() as usize]?;
    let mut pending = Vec::new(alloc);
    pending.push(grammar.start().0)?;
    while let Some(name) = pending.pop() {
        if !known[name as usize] {
            known[name as usize] = true;
            mentions.push_all(name, &mut pending)?;
        }
    }
    Ok(known)
}
