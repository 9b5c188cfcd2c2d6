ghost use Rattle.std.specs.Prelude.{◌≡◌, ◌≤◌, length, IfOk, OnOk};
ghost use Rattle.lr_base.specs.declared.limits.TheConstants.{SYMBOLS};
ghost use Rattle.lr_base.specs.IsGrammar.{IsGrammar};
ghost use Rattle.first_sets.specs.KnownNames.{AreMentions, AreUses, HasNamesOf};

use crate::relation::Relation;
use grammar_data::{RuleId, Sym};
use lr_base::{Grammar, NoMemory};
use std::alloc::Global;

/// Puts the names of a right side to the end of `pairs`, each with this number.
fn push_names(right: &[Sym], number: u32, pairs: &mut Vec<(u32, u32)>) -> Result<(), NoMemory>
    ensures { OnOk result (HasNamesOf right.now number pairs.old.items pairs.new.items) }
{
    for symbol in right {
        if let Sym::Name(name) = symbol {
            pairs.push((name.0, number))?;
        }
    }
    Ok(())
}

/// The names of all right sides, each with the number of the rule that it stands in.
fn pairs_of_uses(alloc: Global, grammar: &Grammar) -> Result<Vec<(u32, u32)>, NoMemory>
    ensures uses { IfOk result (λ pairs. AreUses grammar.now.rules pairs.items) }
    ensures few { IfOk result (λ pairs. length pairs.items ≤ SYMBOLS) }
{
    let mut pairs = Vec::new(alloc);
    for (number, rule) in grammar.rules().iter().enumerate() {
        push_names(&rule.right, number as u32, &mut pairs)?;
    }
    Ok(pairs)
}

/// For each name the rules in whose right sides it stands.
pub fn uses_of_names(alloc: Global, grammar: &Grammar) -> Result<Relation, NoMemory>
    requires { IsGrammar grammar.now }
    ensures uses { IfOk result (λ uses. AreUses grammar.now.rules uses.pairs) }
    ensures keys { IfOk result (λ uses. uses.keys ≡ grammar.now.names) }
    ensures few { IfOk result (λ uses. length uses.pairs ≤ SYMBOLS) }
{
    let pairs = pairs_of_uses(alloc, grammar)?;
    Relation::new(alloc, pairs, grammar.names())
}

/// The left sides of rules, each with the names of its right sides.
fn pairs_of_mentions(
    alloc: Global,
    grammar: &Grammar,
    uses: &[(u32, u32)],
) -> Result<Vec<(u32, u32)>, NoMemory>
    requires { AreUses grammar.now.rules uses.now }
    ensures mentions { IfOk result (λ pairs. AreMentions grammar.now.rules pairs.items) }
    ensures count { IfOk result (λ pairs. length pairs.items ≡ length uses.now) }
{
    let mut pairs = Vec::new(alloc);
    for (name, rule) in uses {
        pairs.push((grammar.left(RuleId(*rule)).0, *name))?;
    }
    Ok(pairs)
}

/// For each name the names of the right sides of its rules.
pub fn mentions_of_names(
    alloc: Global,
    grammar: &Grammar,
    uses: &Relation,
) -> Result<Relation, NoMemory>
    requires grammar { IsGrammar grammar.now }
    requires uses { AreUses grammar.now.rules uses.now.pairs }
    requires few { length uses.now.pairs ≤ SYMBOLS }
    ensures mentions { IfOk result (λ mentions. AreMentions grammar.now.rules mentions.pairs) }
    ensures keys { IfOk result (λ mentions. mentions.keys ≡ grammar.now.names) }
{
    let pairs = pairs_of_mentions(alloc, grammar, uses.pairs())?;
    Relation::new(alloc, pairs, grammar.names())
}
