//! An outline with its numbers.
ghost use Rattle.std.specs.Prelude.{◌≡◌, ◌+◌, ◌<◌, ◌≤◌, ◌^◌, length, sum_by, All, None, IfOk, IfErr, MatchResult};
ghost use Rattle.lr_base.specs.IsGrammar.{IsGrammar};
ghost use Rattle.outline_theory.specs.Spelling.{IsShaped};
ghost use Rattle.outline_theory.specs.Reading.{IsFaultless};
ghost use Rattle.std.specs.List.{flat_map};
ghost use Rattle.outline_theory.specs.Numbering.{AreDecls, lists_of, unnamed_literals, rules_by};
ghost use Rattle.outline_theory.specs.Limits.{first_passed, positions_in};
ghost use Rattle.outline_numbers.specs.Symbols.{AreNumbers, AreVocabularies, lists_in};
ghost use Rattle.numbering_theory.specs.KnownWords.{IsKnownGroup, unnamed_in};
ghost use Rattle.numbering_theory.specs.Passing.{IsFirstFaultOf, all_measures};
ghost use Rattle.outline_numbers.specs.Numbered.{IsNumbered};
ghost use Rattle.outline_theory.specs.MadeSheets.{sheet_with};
ghost use Rattle.numbering_theory.specs.KeptSheets.{KeepsLimits, IsLimitFault, IsOrdinary};

use crate::copies::copy_words;
use crate::limits::{check_positions, check_rules, check_words};
use crate::numbers::Numbers;
use crate::rules::all_rules;
use crate::start::start_of;
use crate::words::{grammar_names, literals, token_names};
use lr_base::{Grammar, NameId, NoMemory, Rule};
use outline_data::{Outline, SheetFault};
use sheet_data::{Bytes, Decl};
use std::alloc::Global;

/// What an outline's numbers make of it.
#[derive(Debug, Drop)]
pub struct Numbered {
    /// The literals without a name, in the order of their tokens.
    pub literals: Vec<Bytes>,
    /// The names of the grammar, by number.
    pub names: Vec<Bytes>,
    pub grammar: Grammar,
}

/// The words of an outline that have numbers.
fn find_numbers(alloc: Global, outline: &Outline) -> Result<Numbers<'_>, NoMemory>
    requires { IsFaultless outline.now }
    ensures numbers { IfOk result (λ n. AreVocabularies n) }
    ensures lists { IfOk result (λ n. lists_in n ≡ lists_of outline.now) }
{
    Ok(Numbers {
        tokens: token_names(alloc, outline)?,
        literals: literals(alloc, outline)?,
        names: grammar_names(alloc, outline)?,
    })
}

/// The grammar of these parts.
fn grammar_of(numbers: &Numbers<'_>, rules: Vec<Rule>, start: NameId) -> Grammar
    requires { IsGrammar (record {
      tokens = length (lists_in numbers.now).literals;
      names = length (lists_in numbers.now).names;
      rules = rules.items;
      start = start;
    }) }
    ensures { result ≡ record {
      tokens = length (lists_in numbers.now).literals;
      names = length (lists_in numbers.now).names;
      rules = rules.items;
      start = start;
    } }
{
    let tokens = numbers.literals.len() as u32;
    let names = numbers.names.len() as u32;
    match Grammar::new(tokens, names, rules, start) {
        Some(grammar) => grammar,
        None => unreachable!(),
    }
}

/// The rules, where the limits are kept.
#[tactic(auto, using(numbering_theory::proofs::LimitLemmas::words_passed, numbering_theory::proofs::LimitLemmas::rules_passed, numbering_theory::proofs::LimitLemmas::positions_passed))]
fn rules_within(
    alloc: Global,
    numbers: &Numbers<'_>,
    outline: &Outline,
    decls: &[Decl],
) -> Result<Vec<Rule>, SheetFault>
    requires vocabularies { AreVocabularies numbers.now }
    requires tokens { length (lists_in numbers.now).tokens ≤ length (lists_in numbers.now).literals }
    requires known { All (IsKnownGroup (lists_in numbers.now)) outline.now.groups }
    requires small { sum_by positions_in decls.now + sum_by length (unnamed_in (lists_in numbers.now)) < 2 ^ 64 }
    ensures numbers { IfOk result (λ _. AreNumbers numbers.now) }
    ensures rules { IfOk result (λ rules. rules.items ≡ flat_map (rules_by (lists_in numbers.now)) outline.now.groups) }
    ensures limits { IfOk result (λ _. first_passed (all_measures (lists_in numbers.now) decls.now (flat_map (rules_by (lists_in numbers.now)) outline.now.groups)) ≡ None) }
    ensures fault { IfErr result (λ fault. IsFirstFaultOf (all_measures (lists_in numbers.now) decls.now (flat_map (rules_by (lists_in numbers.now)) outline.now.groups)) fault) }
{
    check_words(numbers, decls)?;
    let rules = all_rules(alloc, numbers, outline)?;
    check_rules(&rules)?;
    check_positions(numbers, decls)?;
    Ok(rules)
}

/// The literals without a name.
fn copy_unnamed(alloc: Global, numbers: &Numbers<'_>) -> Result<Vec<Bytes>, NoMemory>
    requires { length (lists_in numbers.now).tokens ≤ length (lists_in numbers.now).literals }
    ensures { IfOk result (λ copies. copies.items ≡ unnamed_in (lists_in numbers.now)) }
{
    copy_words(alloc, numbers.unnamed())
}

/// The names of the grammar.
fn copy_names(alloc: Global, numbers: &Numbers<'_>) -> Result<Vec<Bytes>, NoMemory>
    ensures { IfOk result (λ copies. copies.items ≡ (lists_in numbers.now).names) }
{
    copy_words(alloc, &numbers.names.words)
}

/// Numbers the tokens, the literals, the names and the rules of an outline that has no fault on its lines; `decls` are the
/// declarations that its sheet keeps. The first limit that is passed is the fault.
pub fn number_outline(
    alloc: Global,
    outline: &Outline,
    decls: &[Decl],
) -> Result<Numbered, SheetFault>
    requires faultless { IsFaultless outline.now }
    requires shaped { IsShaped outline.now }
    requires decls { AreDecls outline.now.declarations decls.now }
    requires small { sum_by positions_in decls.now + sum_by length (unnamed_literals outline.now) < 2 ^ 64 }
    ensures numbers { IfOk result (λ n. IsNumbered outline.now n) }
    ensures limits { MatchResult result (λ _. KeepsLimits (sheet_with outline.now decls.now)) (IsLimitFault (sheet_with outline.now decls.now)) }
    ensures ordinary { IfOk result (λ _. IsOrdinary outline.now decls.now) }
{
    let numbers = find_numbers(alloc, outline)?;
    let rules = match rules_within(alloc, &numbers, outline, decls) {
        Ok(rules) => rules,
        Err(fault) => return Err(fault),
    };
    let start = start_of(outline, &numbers);
    let grammar = grammar_of(&numbers, rules, start);
    Ok(Numbered {
        literals: copy_unnamed(alloc, &numbers)?,
        names: copy_names(alloc, &numbers)?,
        grammar,
    })
}
