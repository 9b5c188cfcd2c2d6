//! Faults of patterns.
ghost use Rattle.std.specs.Prelude.{◌≡◌, [], ◌∷◌, OnOk, MatchOption};
ghost use Rattle.std.specs.List.{flat_map};
ghost use Rattle.outline_theory.specs.Words.{pattern_in};
ghost use Rattle.outline_checks.specs.Noted.{Noted};
ghost use Rattle.outline_checks.specs.Kinds.{InSome, PatternTextFault};

use crate::first_fault::FirstFault;
use lr_base::NoMemory;
use outline_data::{Declaration, SheetFault, Word};
use pattern_data::{Pattern, PatternFault};
use std::alloc::Global;

/// Notes each text of a pattern that spells none, and each whose pattern has the empty string.
pub fn note_patterns(
    alloc: Global,
    declarations: &[Declaration],
    first: &mut FirstFault,
) -> Result<(), NoMemory>
    ensures { OnOk result (Noted first.old.fault first.new.fault (InSome PatternTextFault (flat_map pattern_in declarations.now))) }
{
    for declaration in declarations {
        let Some(pattern) = pattern_text(declaration) else {
            continue;
        };
        note_pattern(alloc, pattern, first)?;
    }
    Ok(())
}

/// Notes a text that spells no pattern, or one that has the empty string.
fn note_pattern(alloc: Global, text: &Word, first: &mut FirstFault) -> Result<(), NoMemory>
    ensures { OnOk result (Noted first.old.fault first.new.fault (PatternTextFault text.now)) }
{
    match Pattern::read(alloc, text.bytes.as_slice()) {
        Ok(_) => Ok(()),
        Err(PatternFault::Syntax) => {
            first.note_if(true, SheetFault::BadPattern(text.line));
            Ok(())
        }
        Err(PatternFault::MatchesEmpty) => {
            first.note_if(true, SheetFault::PatternMatchesEmpty(text.line));
            Ok(())
        }
        Err(PatternFault::NoMemory) => Err(NoMemory),
    }
}

/// The text of the pattern, where one is declared.
fn pattern_text(declaration: &Declaration) -> Option<&Word>
    ensures { MatchOption result (pattern_in declaration.now ≡ []) (λ word. pattern_in declaration.now ≡ word.now ∷ []) }
{
    match declaration {
        Declaration::Literal {
            name: _,
            literal: _,
        } => None,
        Declaration::Matched { name: _, pattern } => Some(pattern),
        Declaration::Skip { pattern } => Some(pattern),
        Declaration::Start { line: _, name: _ } => None,
    }
}
