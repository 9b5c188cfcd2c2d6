//! One lexeme more in an alternative.
ghost use Rattle.std.specs.Prelude.{◌≡◌, Some, IfOk, IfErr};
ghost use Rattle.stage_theory.specs.Drafts.{more_side, more_template, more_behind, more_mark};
ghost use Rattle.outline_reader.specs.Progress.{draft_of};
ghost use Rattle.outline_reader.specs.Refusals.{IsRefused};

use crate::progress::{Finished, OpenRule, Progress};
use lexeme_theory::{Directive, Lexeme, Single};
use outline_data::{Alternative, PlaceUse, RuleGroup, SheetFault, Symbol, TemplatePart, Word};
use std::alloc::Global;

/// A symbol, a template, a mark, or what ends the alternative.
pub fn more_of_side(
    alloc: Global,
    finished: Finished,
    group: RuleGroup,
    right: Vec<Symbol>,
    lexeme: Lexeme,
    line: u32,
) -> Result<Progress, SheetFault>
    ensures next { IfOk result (λ next. more_side finished.declarations.items finished.groups.items group right.items lexeme line ≡ Some (draft_of next)) }
    ensures refused { IfErr result (λ fault. IsRefused (more_side finished.declarations.items finished.groups.items group right.items lexeme line) line fault) }
{
    let mut right = right;
    let part = match lexeme {
        Lexeme::Name(bytes) => {
            right.push(Symbol::Name(Word { bytes, line }))?;
            OpenRule::SideOpen { group, right }
        }
        Lexeme::Quoted(bytes) => {
            right.push(Symbol::Quoted(Word { bytes, line }))?;
            OpenRule::SideOpen { group, right }
        }
        Lexeme::Single(Single::LeftBrace) => OpenRule::TemplateOpen {
            group,
            right,
            parts: Vec::new(alloc),
        },
        other => {
            let alternative = Alternative {
                right,
                template: None,
                marks: Vec::new(alloc),
            };
            return more_behind_side(alloc, finished, group, alternative, other, line);
        }
    };
    Ok(Progress::Ruling { finished, part })
}

/// A part of a template, or its closing brace.
pub fn more_of_template(
    alloc: Global,
    finished: Finished,
    group: RuleGroup,
    right: Vec<Symbol>,
    parts: Vec<TemplatePart>,
    lexeme: Lexeme,
    line: u32,
) -> Result<Progress, SheetFault>
    ensures next { IfOk result (λ next. more_template finished.declarations.items finished.groups.items group right.items parts.items lexeme line ≡ Some (draft_of next)) }
    ensures refused { IfErr result (λ fault. IsRefused (more_template finished.declarations.items finished.groups.items group right.items parts.items lexeme line) line fault) }
{
    let mut parts = parts;
    match lexeme {
        Lexeme::Text(bytes) => parts.push(TemplatePart::Text(bytes))?,
        Lexeme::Fold(place) => parts.push(TemplatePart::Fold(PlaceUse { place, line }))?,
        Lexeme::NumberOf(place) => parts.push(TemplatePart::Number(PlaceUse { place, line }))?,
        Lexeme::Single(Single::RightBrace) => {
            let alternative = Alternative {
                right,
                template: Some(parts),
                marks: Vec::new(alloc),
            };
            let part = OpenRule::SideBehind { group, alternative };
            return Ok(Progress::Ruling { finished, part });
        }
        _ => return Err(SheetFault::Syntax(line)),
    }
    let part = OpenRule::TemplateOpen {
        group,
        right,
        parts,
    };
    Ok(Progress::Ruling { finished, part })
}

/// A mark, or what ends the alternative.
pub fn more_behind_side(
    alloc: Global,
    finished: Finished,
    group: RuleGroup,
    alternative: Alternative,
    lexeme: Lexeme,
    line: u32,
) -> Result<Progress, SheetFault>
    ensures next { IfOk result (λ next. more_behind finished.declarations.items finished.groups.items group alternative lexeme line ≡ Some (draft_of next)) }
    ensures refused { IfErr result (λ fault. IsRefused (more_behind finished.declarations.items finished.groups.items group alternative lexeme line) line fault) }
{
    let mut group = group;
    let mut finished = finished;
    let part = match lexeme {
        Lexeme::Directive(Directive::Declares) => OpenRule::MarkBegun { group, alternative },
        Lexeme::Single(Single::Bar) => {
            group.alternatives.push(alternative)?;
            let right = Vec::new(alloc);
            OpenRule::SideOpen { group, right }
        }
        Lexeme::Single(Single::Semicolon) => {
            group.alternatives.push(alternative)?;
            finished.groups.push(group)?;
            OpenRule::Nothing
        }
        _ => return Err(SheetFault::Syntax(line)),
    };
    Ok(Progress::Ruling { finished, part })
}

/// The place of a mark.
pub fn more_of_mark(
    finished: Finished,
    group: RuleGroup,
    alternative: Alternative,
    lexeme: Lexeme,
    line: u32,
) -> Result<Progress, SheetFault>
    ensures next { IfOk result (λ next. more_mark finished.declarations.items finished.groups.items group alternative lexeme line ≡ Some (draft_of next)) }
    ensures refused { IfErr result (λ fault. IsRefused (more_mark finished.declarations.items finished.groups.items group alternative lexeme line) line fault) }
{
    let mut alternative = alternative;
    match lexeme {
        Lexeme::Number(place) => {
            alternative.marks.push(PlaceUse { place, line })?;
            let part = OpenRule::SideBehind { group, alternative };
            Ok(Progress::Ruling { finished, part })
        }
        _ => Err(SheetFault::Syntax(line)),
    }
}
