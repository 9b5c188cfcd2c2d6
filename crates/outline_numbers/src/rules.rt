//! The rules by their numbers.
ghost use Rattle.std.specs.Prelude.{◌≡◌, ◌++◌, map, All, IfOk, OnOk};
ghost use Rattle.std.specs.List.{flat_map};
ghost use Rattle.outline_theory.specs.Numbering.{symbol_by, rules_by};
ghost use Rattle.outline_numbers.specs.Symbols.{AreNumbers, lists_in};
ghost use Rattle.numbering_theory.specs.KnownWords.{AreKnown, IsKnownGroup};

use crate::numbers::Numbers;
use lr_base::{NoMemory, Rule, Sym};
use outline_data::{Alternative, Outline, RuleGroup};
use std::alloc::Global;

/// The symbols of a right side.
fn right_side(
    alloc: Global,
    numbers: &Numbers<'_>,
    alternative: &Alternative,
) -> Result<Vec<Sym>, NoMemory>
    requires numbers { AreNumbers numbers.now }
    requires known { AreKnown (lists_in numbers.now) alternative.now }
    ensures { IfOk result (λ side. side.items ≡ map (symbol_by (lists_in numbers.now)) alternative.now.right) }
{
    let mut side = Vec::new(alloc);
    for symbol in &alternative.right {
        side.push(numbers.symbol(symbol))?;
    }
    Ok(side)
}

/// Puts the rules of one left side behind the others.
fn push_rules(
    alloc: Global,
    numbers: &Numbers<'_>,
    group: &RuleGroup,
    rules: &mut Vec<Rule>,
) -> Result<(), NoMemory>
    requires numbers { AreNumbers numbers.now }
    requires known { IsKnownGroup (lists_in numbers.now) group.now }
    ensures { OnOk result (rules.new.items ≡ rules.old.items ++ rules_by (lists_in numbers.now) group.now) }
{
    let left = numbers.name(group.left.bytes.as_slice());
    for alternative in &group.alternatives {
        let right = right_side(alloc, numbers, alternative)?;
        rules.push(Rule { left, right })?;
    }
    Ok(())
}

/// The rules of an outline: one for each alternative.
pub fn all_rules(
    alloc: Global,
    numbers: &Numbers<'_>,
    outline: &Outline,
) -> Result<Vec<Rule>, NoMemory>
    requires numbers { AreNumbers numbers.now }
    requires known { All (IsKnownGroup (lists_in numbers.now)) outline.now.groups }
    ensures { IfOk result (λ rules. rules.items ≡ flat_map (rules_by (lists_in numbers.now)) outline.now.groups) }
{
    let mut rules = Vec::new(alloc);
    for group in &outline.groups {
        push_rules(alloc, numbers, group, &mut rules)?;
    }
    Ok(rules)
}
