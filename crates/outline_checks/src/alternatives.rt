//! Faults of rules.
ghost use Rattle.std.specs.Prelude.{◌≡◌, List, length, map, IfOk, OnOk};
ghost use Rattle.std.specs.List.{flat_map};
ghost use Rattle.outline_data.specs.GroupParts.{GroupParts};
ghost use Rattle.outline_theory.specs.Words.{texts, parts_of};
ghost use Rattle.outline_checks.specs.Noted.{Noted};
ghost use Rattle.outline_checks.specs.WordSets.{IsSetOf};
ghost use Rattle.outline_checks.specs.Kinds.{InSome, PlaceFault, NoTokenFault, AlternativeFault, GroupFault, TemplateFault};

use crate::first_fault::FirstFault;
use crate::names::Names;
use crate::symbols::note_symbols;
use crate::uses::{note_grammar_names, note_places, template_numbers, template_places};
use crate::word_set::WordSet;
use lr_base::NoMemory;
use outline_data::{Alternative, RuleGroup, SheetFault, Symbol, TemplatePart};
use std::alloc::Global;

/// The names that have a rule.
pub fn index_left_sides(alloc: Global, groups: &[RuleGroup]) -> Result<WordSet<'_>, NoMemory>
    ensures { IfOk result (λ words. IsSetOf words (texts (map (λ (g : GroupParts). g.left) groups.now))) }
{
    let mut words = WordSet::new(alloc);
    for group in groups {
        words.add(group.left.bytes.as_slice())?;
    }
    Ok(words)
}

/// Notes the faults of all rules.
pub fn note_groups(
    alloc: Global,
    names: &Names<'_>,
    groups: &[RuleGroup],
    first: &mut FirstFault,
) -> Result<(), NoMemory>
    ensures { OnOk result (Noted first.old.fault first.new.fault (InSome (GroupFault names.now) groups.now)) }
{
    for group in groups {
        note_group(alloc, names, group, first)?;
    }
    Ok(())
}

/// Notes a left side that is a token, and the faults of the alternatives.
fn note_group(
    alloc: Global,
    names: &Names<'_>,
    group: &RuleGroup,
    first: &mut FirstFault,
) -> Result<(), NoMemory>
    ensures { OnOk result (Noted first.old.fault first.new.fault (GroupFault names.now group.now)) }
{
    let is_token = names.is_token(group.left.bytes.as_slice());
    first.note_if(is_token, SheetFault::Redeclared(group.left.line));
    note_alternatives(alloc, names, &group.alternatives, first)
}

fn note_alternatives(
    alloc: Global,
    names: &Names<'_>,
    alternatives: &[Alternative],
    first: &mut FirstFault,
) -> Result<(), NoMemory>
    ensures { OnOk result (Noted first.old.fault first.new.fault (InSome (AlternativeFault names.now) alternatives.now)) }
{
    for alternative in alternatives {
        note_alternative(alloc, names, alternative, first)?;
    }
    Ok(())
}

/// Notes the faults of the right side, of its template and of its marks.
fn note_alternative(
    alloc: Global,
    names: &Names<'_>,
    alternative: &Alternative,
    first: &mut FirstFault,
) -> Result<(), NoMemory>
    ensures { OnOk result (Noted first.old.fault first.new.fault (AlternativeFault names.now alternative.now)) }
{
    let right = alternative.right.as_slice();
    note_symbols(names, right, first);
    note_template(alloc, names, right, template_of(alternative), first)?;
    note_places(alloc, right.len(), &alternative.marks, first)?;
    note_grammar_names(names, right, &alternative.marks, first);
    Ok(())
}

/// The parts of the template, where there is one.
fn template_of(alternative: &Alternative) -> &[TemplatePart]
    ensures { result.now ≡ parts_of alternative.now }
{
    match &alternative.template {
        Some(parts) => parts,
        None => &[],
    }
}

fn note_template(
    alloc: Global,
    names: &Names<'_>,
    right: &[Symbol],
    parts: &[TemplatePart],
    first: &mut FirstFault,
) -> Result<(), NoMemory>
    ensures { OnOk result (Noted first.old.fault first.new.fault (TemplateFault names.now right.now parts.now)) }
{
    let uses = template_places(alloc, parts)?;
    note_places(alloc, right.len(), &uses, first)?;
    let numbers = template_numbers(alloc, parts)?;
    note_grammar_names(names, right, &numbers, first);
    Ok(())
}
