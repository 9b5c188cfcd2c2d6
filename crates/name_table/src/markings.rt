//! Which parts of a sheet's rules may have marked leaves.
ghost use Rattle.std.specs.Prelude.{◌≡◌, ◌<◌, ◌==◌, [], ◌∷◌, true, false, length, IfOk};
ghost use Rattle.std.specs.List.{list_any};
ghost use Rattle.grammar_theory.specs.Rules.{AllNames};
ghost use Rattle.name_table.specs.Markings.{AreSettled, IsSettled, is_marked_part, is_marking, unmarking};

use grammar_data::{NameId, RuleId, Sym};
use lr_base::NoMemory;
use sheet_reader::Sheet;
use std::alloc::Global;

/// Whether the name is among the marking ones.
fn is_marking_name(marking: &[bool], name: NameId) -> bool
    ensures { result ≡ is_marking marking.now name }
{
    match marking.get(name.0 as usize) {
        Some(found) => *found,
        None => false,
    }
}

/// Whether the symbol is a marking name.
fn is_marking_symbol(marking: &[bool], symbol: Sym) -> bool
    ensures { result ≡ false → AllNames (λ n. is_marking marking.now n ≡ false) (symbol ∷ []) }
{
    match symbol {
        Sym::Token(_) => false,
        Sym::Name(name) => is_marking_name(marking, name),
    }
}

/// Whether one of the symbols is a marking name.
fn mentions_one(marking: &[bool], right: &[Sym]) -> bool
    ensures { result ≡ false → AllNames (λ n. is_marking marking.now n ≡ false) right.now }
{
    for symbol in right {
        if is_marking_symbol(marking, *symbol) {
            return true;
        }
    }
    false
}

/// Notes the name of a rule among the marking ones, where the rule declares a part or mentions a marking name; whether it
/// wasn't among them before.
fn note_rule(sheet: &Sheet, rule: RuleId, marking: &mut Vec<bool>) -> bool
    requires rule { rule < length sheet.now.grammar.rules }
    requires count { length marking.old.items ≡ sheet.now.grammar.names }
    ensures count { length marking.new.items ≡ length marking.old.items }
    ensures fewer { result ≡ true → unmarking marking.new.items < unmarking marking.old.items }
    ensures same { result ≡ false → marking.new.items ≡ marking.old.items }
    ensures settled { result ≡ false → IsSettled sheet.now marking.old.items rule }
{
    let grammar = sheet.grammar();
    let left = grammar.left(rule);
    if is_marking_name(marking, left) {
        return false;
    }
    if sheet.declares(rule).is_empty() && !mentions_one(marking, grammar.right(rule)) {
        return false;
    }
    marking[left.0 as usize] = true;
    true
}

/// Goes over all rules, the last one first; whether a name was noted that wasn't among the marking ones.
fn note_rules(sheet: &Sheet, marking: &mut Vec<bool>) -> bool
    requires count { length marking.old.items ≡ sheet.now.grammar.names }
    ensures count { length marking.new.items ≡ length marking.old.items }
    ensures fewer { result ≡ true → unmarking marking.new.items < unmarking marking.old.items }
    ensures settled { result ≡ false → AreSettled sheet.now marking.new.items }
{
    let mut noted = false;
    let mut left = sheet.grammar().rule_count();
    while left > 0 {
        left -= 1;
        noted |= note_rule(sheet, RuleId(left), marking);
    }
    noted
}

/// The names with a tree that may have marked leaves.
pub fn marking_names(alloc: Global, sheet: &Sheet) -> Result<Vec<bool>, NoMemory>
    ensures { IfOk result (λ marking. AreSettled sheet.now marking.items) }
{
    let count = sheet.grammar().names() as usize;
    let mut marking = vec![in alloc; false; count]?;
    while note_rules(sheet, &mut marking) {}
    Ok(marking)
}

/// Whether the place, counted from 1, is one of these.
fn is_declared(declared: &[u32], place: usize) -> bool
    ensures { result ≡ list_any (λ other. other == place) declared.now }
{
    declared.iter().any(|other| *other as usize == place)
}

/// Whether a part of a rule, at a place that is counted from 1, may have marked leaves or be one: a token that the rule
/// declares, or a marking name.
pub fn may_be_marked(declared: &[u32], marking: &[bool], place: usize, symbol: Sym) -> bool
    ensures { result ≡ is_marked_part declared.now marking.now place symbol }
{
    match symbol {
        Sym::Token(_) => is_declared(declared, place),
        Sym::Name(name) => is_marking_name(marking, name),
    }
}
