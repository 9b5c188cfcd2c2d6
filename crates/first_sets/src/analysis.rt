ghost use Rattle.std.specs.Prelude.{◌≡◌, ◌↔◌, ℕ, ◌≤◌, length, All, IfErr, IfOk, IsTrue, MatchOption, MatchResult};
ghost use Rattle.lr_base.specs.declared.limits.TheConstants.{NAMES};
ghost use Rattle.lr_base.specs.IsGrammar.{IsGrammar};
ghost use Rattle.grammar_data.specs.TokenSet.{IsTokenSet, has_token};
ghost use Rattle.grammar_theory.specs.UsefulNames.{AllProductive};
ghost use Rattle.grammar_theory.specs.UselessNames.{AllReachable, IsUseful};
ghost use Rattle.grammar_theory.specs.EmptyNames.{IsNullable};
ghost use Rattle.grammar_theory.specs.FirstTokens.{FirstHas};
ghost use Rattle.first_sets.specs.EmptySizes.{AreKnownBelow, IsLeastUnknown};
ghost use Rattle.first_sets.specs.KnownNames.{AreMentions, AreUses, is_known};
ghost use Rattle.first_sets.specs.NameFacts.{AreFirsts, AreSizes};
ghost use Rattle.first_sets.specs.Openings.{set_at};
ghost use Rattle.first_sets.specs.NameFaults.{IsDue};

use crate::empty_size::{empty_sizes, least_unsized};
use crate::fault::UselessFault;
use crate::first_tokens::first_tokens;
use crate::firsts::Firsts;
use crate::known_names::{Lists, known_names};
use crate::opening::{openings_of, readers_of};
use crate::reached_names::reached_names;
use crate::relation::Relation;
use crate::uses::{mentions_of_names, uses_of_names};
use grammar_data::NameId;
use lr_base::{Grammar, NoMemory, TokenSet};
use std::alloc::Global;

/// The least name that isn't known.
fn least_unknown(known: &[bool]) -> Option<NameId>
    requires { length known.now ≤ NAMES }
    ensures { MatchOption result (AreKnownBelow known.now (length known.now)) (IsLeastUnknown known.now) }
{
    for name in 0..known.len() {
        if !known[name] {
            return Some(NameId(name as u32));
        }
    }
    None
}

/// Whether all names are productive.
fn check_productive(alloc: Global, grammar: &Grammar, uses: &Relation) -> Result<(), UselessFault>
    requires grammar { IsGrammar grammar.now }
    requires uses { AreUses grammar.now.rules uses.now.pairs }
    requires keys { uses.now.keys ≡ grammar.now.names }
    ensures { MatchResult result (λ _. AllProductive grammar.now) (IsDue grammar.now) }
{
    let productive = known_names(alloc, grammar, uses, Lists::Any)?;
    match least_unknown(&productive) {
        None => Ok(()),
        Some(name) => Err(UselessFault::Unproductive(name)),
    }
}

/// Whether all names are reachable.
fn check_reachable(
    alloc: Global,
    grammar: &Grammar,
    mentions: &Relation,
) -> Result<(), UselessFault>
    requires grammar { IsGrammar grammar.now }
    requires productive { AllProductive grammar.now }
    requires mentions { AreMentions grammar.now.rules mentions.now.pairs }
    requires keys { mentions.now.keys ≡ grammar.now.names }
    ensures { MatchResult result (λ _. AllReachable grammar.now) (IsDue grammar.now) }
{
    let reached = reached_names(alloc, grammar, mentions)?;
    match least_unknown(&reached) {
        None => Ok(()),
        Some(name) => Err(UselessFault::Unreachable(name)),
    }
}

/// The empty sizes of all names, 0 where a name isn't nullable.
fn checked_sizes(
    alloc: Global,
    grammar: &Grammar,
    nullable: &[bool],
) -> Result<Vec<u32>, UselessFault>
    requires grammar { IsGrammar grammar.now }
    requires productive { AllProductive grammar.now }
    requires reachable { AllReachable grammar.now }
    requires count { length nullable.now ≡ grammar.now.names }
    requires nullable { (n : ℕ) → IsTrue (is_known nullable.now n) ↔ IsNullable grammar.now n }
    ensures { MatchResult result (λ sizes. AreSizes grammar.now sizes.items) (IsDue grammar.now) }
{
    let sizes = empty_sizes(alloc, grammar, nullable)?;
    match least_unsized(nullable, &sizes) {
        None => Ok(sizes),
        Some(name) => Err(UselessFault::EmptyTooLarge(name)),
    }
}

/// The first tokens of all names.
fn first_sets(
    alloc: Global,
    grammar: &Grammar,
    nullable: &[bool],
) -> Result<Vec<TokenSet>, NoMemory>
    requires grammar { IsGrammar grammar.now }
    requires productive { AllProductive grammar.now }
    requires nullable { (n : ℕ) → IsTrue (is_known nullable.now n) ↔ IsNullable grammar.now n }
    ensures tokens { IfOk result (λ sets. (n a : ℕ) → IsTrue (has_token (set_at sets.items n) a) ↔ FirstHas grammar.now n a) }
    ensures sets { IfOk result (λ sets. All IsTokenSet sets.items) }
    ensures count { IfOk result (λ sets. length sets.items ≡ grammar.now.names) }
{
    let openings = openings_of(alloc, grammar, nullable)?;
    let readers = readers_of(alloc, &openings, grammar.names())?;
    let sets = first_tokens(alloc, grammar, &openings, &readers)?;
    Ok(sets)
}

/// The first tokens and the empty sizes of all names; or the least name that is useless: one that derives no token
/// list, else one that the start doesn't reach, else a nullable one whose least empty tree has more than 1,000 inner
/// nodes.
pub fn analyse(alloc: Global, grammar: &Grammar) -> Result<Firsts, UselessFault>
    ensures useful { IfOk result (λ _. IsUseful grammar.now) }
    ensures facts { IfOk result (λ firsts. AreFirsts grammar.now firsts) }
    ensures due { IfErr result (λ fault. IsDue grammar.now fault) }
{
    grammar.holds();
    let uses = uses_of_names(alloc, grammar)?;
    check_productive(alloc, grammar, &uses)?;
    let mentions = mentions_of_names(alloc, grammar, &uses)?;
    check_reachable(alloc, grammar, &mentions)?;
    let nullable = known_names(alloc, grammar, &uses, Lists::Empty)?;
    let sizes = checked_sizes(alloc, grammar, &nullable)?;
    let sets = first_sets(alloc, grammar, &nullable)?;
    Ok(Firsts::new(sets, sizes))
}
