//! The declarations, templates and marks of a sheet, out of its outline.
ghost use Rattle.std.specs.Prelude.{◌≡◌, ◌≤◌, ◌++◌, [], ◌∷◌, length, map, All, IfOk, OnOk};
ghost use Rattle.std.specs.List.{range_with_len, flat_map};
ghost use Rattle.std.specs.Option.{option_map};
ghost use Rattle.lr_base.specs.declared.limits.TheConstants.{SIDE_SYMBOLS};
ghost use Rattle.pattern_data.specs.Spellings.{IsSpelling};
ghost use Rattle.sheet_data.specs.declared.parts.Part.TheVariants.{Fold};
ghost use Rattle.outline_data.specs.GroupParts.{GroupParts};
ghost use Rattle.outline_theory.specs.Words.{places};
ghost use Rattle.outline_theory.specs.Numbering.{AreDecls, part_of, template_by, template_of, declares_of};
ghost use Rattle.sheet_reader.specs.RuleTexts.{IsKept, IsPatternText, HasPatternText, AreShort, templates_in, declares_in};

use crate::copies::copy_bytes;
use lr_base::NoMemory;
use outline_data::{Alternative, Declaration, PlaceUse, RuleGroup, TemplatePart, Word};
use pattern_data::{Pattern, PatternFault};
use sheet_data::{Decl, Part};
use std::alloc::Global;

/// The pattern that a text spells.
fn pattern_of(alloc: Global, text: &Word) -> Result<Pattern, NoMemory>
    requires { IsPatternText text.now.bytes }
    ensures { IfOk result (λ pattern. IsSpelling text.now.bytes pattern) }
{
    match Pattern::read(alloc, text.bytes.as_slice()) {
        Ok(pattern) => Ok(pattern),
        Err(PatternFault::NoMemory) => Err(NoMemory),
        Err(PatternFault::Syntax) => unreachable!(),
        Err(PatternFault::MatchesEmpty) => unreachable!(),
    }
}

/// What a sheet keeps of a declaration: nothing of one of the start.
fn decl_of(alloc: Global, declaration: &Declaration) -> Result<Option<Decl>, NoMemory>
    requires { HasPatternText declaration.now }
    ensures { IfOk result (IsKept declaration.now) }
{
    match declaration {
        Declaration::Literal { name, literal } => Ok(Some(Decl::Literal {
            name: copy_bytes(alloc, name)?,
            bytes: copy_bytes(alloc, literal)?,
        })),
        Declaration::Matched { name, pattern } => Ok(Some(Decl::Matched {
            name: copy_bytes(alloc, name)?,
            pattern: pattern_of(alloc, pattern)?,
        })),
        Declaration::Skip { pattern } => Ok(Some(Decl::Skip {
            pattern: pattern_of(alloc, pattern)?,
        })),
        Declaration::Start { .. } => Ok(None),
    }
}

/// The declarations that a sheet keeps.
pub fn decls_of(alloc: Global, declarations: &[Declaration]) -> Result<Vec<Decl>, NoMemory>
    requires { All HasPatternText declarations.now }
    ensures { IfOk result (λ decls. AreDecls declarations.now decls.items) }
{
    let mut decls = Vec::new(alloc);
    for declaration in declarations {
        if let Some(decl) = decl_of(alloc, declaration)? {
            decls.push(decl)?;
        }
    }
    Ok(decls)
}

fn part(written: TemplatePart) -> Part
    ensures { result ≡ part_of written }
{
    match written {
        TemplatePart::Text(bytes) => Part::Text(bytes),
        TemplatePart::Fold(place) => Part::Fold(place.place),
        TemplatePart::Number(place) => Part::Number(place.place),
    }
}

/// The parts of a template that is written.
fn written_parts(alloc: Global, written: Vec<TemplatePart>) -> Result<Vec<Part>, NoMemory>
    ensures { IfOk result (λ parts. parts.items ≡ map part_of written.items) }
{
    let mut parts = Vec::with_capacity(alloc, written.len())?;
    for one in written {
        parts.push(part(one))?;
    }
    Ok(parts)
}

/// The template that gives what each of so many parts gives, in turn.
fn fold_parts(alloc: Global, count: u32) -> Result<Vec<Part>, NoMemory>
    requires { count ≤ SIDE_SYMBOLS }
    ensures { IfOk result (λ parts. parts.items ≡ map Fold (range_with_len 1 count)) }
{
    let parts = (1..count + 1).map(Part::Fold).collect(alloc)?;
    Ok(parts)
}

/// The template of a right side of so many symbols.
fn template(
    alloc: Global,
    count: usize,
    written: Option<Vec<TemplatePart>>,
) -> Result<Vec<Part>, NoMemory>
    requires { count ≤ SIDE_SYMBOLS }
    ensures { IfOk result (λ parts. parts.items ≡ template_by (option_map (λ t. t.items) written) count) }
{
    match written {
        Some(parts) => written_parts(alloc, parts),
        None => fold_parts(alloc, count as u32),
    }
}

/// The places that marks declare.
fn marked_places(alloc: Global, marks: Vec<PlaceUse>) -> Result<Vec<u32>, NoMemory>
    ensures { IfOk result (λ numbers. numbers.items ≡ places marks.items) }
{
    let mut numbers = Vec::with_capacity(alloc, marks.len())?;
    for mark in marks {
        numbers.push(mark.place)?;
    }
    Ok(numbers)
}

/// The template of each rule, and the places that it declares, by the rules' numbers.
#[derive(Debug, Drop)]
pub struct RuleTexts {
    pub templates: Vec<Vec<Part>>,
    pub declares: Vec<Vec<u32>>,
}

impl RuleTexts {
    pub fn new(alloc: Global) -> RuleTexts
        ensures templates { templates_in result ≡ [] }
        ensures declares { declares_in result ≡ [] }
    {
        RuleTexts {
            templates: Vec::new(alloc),
            declares: Vec::new(alloc),
        }
    }

    /// Puts one rule's behind the others.
    fn push(&mut self, alloc: Global, alternative: Alternative) -> Result<(), NoMemory>
        requires { length alternative.right ≤ SIDE_SYMBOLS }
        ensures templates { OnOk result (templates_in self.new ≡ templates_in self.old ++ template_of alternative ∷ []) }
        ensures declares { OnOk result (declares_in self.new ≡ declares_in self.old ++ declares_of alternative ∷ []) }
    {
        let Alternative {
            right,
            template: written,
            marks,
        } = alternative;
        let parts = template(alloc, right.len(), written)?;
        self.templates.push(parts)?;
        self.declares.push(marked_places(alloc, marks)?)?;
        Ok(())
    }

    /// Puts those of one left side's rules behind the others.
    pub fn push_group(&mut self, alloc: Global, group: RuleGroup) -> Result<(), NoMemory>
        requires { AreShort group }
        ensures templates { OnOk result (templates_in self.new ≡ templates_in self.old ++ map template_of group.alternatives) }
        ensures declares { OnOk result (declares_in self.new ≡ declares_in self.old ++ map declares_of group.alternatives) }
    {
        for alternative in group.alternatives {
            self.push(alloc, alternative)?;
        }
        Ok(())
    }
}

/// The templates and marks of all rules.
pub fn rule_texts(alloc: Global, groups: Vec<RuleGroup>) -> Result<RuleTexts, NoMemory>
    requires { All AreShort groups.items }
    ensures templates { IfOk result (λ texts. templates_in texts ≡ map template_of (flat_map (λ (g : GroupParts). g.alternatives) groups.items)) }
    ensures declares { IfOk result (λ texts. declares_in texts ≡ map declares_of (flat_map (λ (g : GroupParts). g.alternatives) groups.items)) }
{
    let mut texts = RuleTexts::new(alloc);
    for group in groups {
        texts.push_group(alloc, group)?;
    }
    Ok(texts)
}
