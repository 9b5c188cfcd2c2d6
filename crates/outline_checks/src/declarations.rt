//! Faults of declarations.
ghost use Rattle.std.specs.Prelude.{◌≡◌, ℕ, true, List, [], ◌∷◌, ◌++◌, IfOk, OnOk, MatchOption};
ghost use Rattle.std.specs.List.{flat_map};
ghost use Rattle.outline_theory.specs.Words.{texts, token_in, literal_in, start_in};
ghost use Rattle.outline_checks.specs.Noted.{Noted};
ghost use Rattle.outline_checks.specs.WordSets.{has_word, IsSetOf};
ghost use Rattle.outline_checks.specs.Kinds.{RepeatFault, NamedLiteralFault, StartFault};

use crate::first_fault::FirstFault;
use crate::names::Names;
use crate::symbols::note_literal;
use crate::word_set::WordSet;
use lr_base::NoMemory;
use outline_data::{Declaration, SheetFault, Word};
use std::alloc::Global;

/// The names of the tokens. Notes each that stands again.
pub fn index_tokens<'a>(
    alloc: Global,
    declarations: &'a [Declaration],
    first: &mut FirstFault,
) -> Result<WordSet<'a>, NoMemory>
    ensures tokens { IfOk result (λ tokens. IsSetOf tokens (texts (flat_map token_in declarations.now))) }
    ensures noted { OnOk result (Noted first.old.fault first.new.fault (RepeatFault (flat_map token_in declarations.now))) }
{
    let mut tokens = WordSet::new(alloc);
    for declaration in declarations {
        let Some(name) = token_name(declaration) else {
            continue;
        };
        note_again(&mut tokens, name, first)?;
    }
    Ok(tokens)
}

/// Notes each named literal that stands again, has a line feed or is empty.
pub fn note_named_literals(
    alloc: Global,
    declarations: &[Declaration],
    first: &mut FirstFault,
) -> Result<(), NoMemory>
    ensures { OnOk result (Noted first.old.fault first.new.fault (NamedLiteralFault (flat_map literal_in declarations.now))) }
{
    let mut literals = WordSet::new(alloc);
    for declaration in declarations {
        let Some(literal) = named_literal(declaration) else {
            continue;
        };
        note_again(&mut literals, literal, first)?;
        note_literal(literal, first);
    }
    Ok(())
}

/// Notes each start but the first, and each that has no rule.
pub fn note_starts(names: &Names<'_>, declarations: &[Declaration], first: &mut FirstFault)
    ensures { Noted first.old.fault first.new.fault (StartFault names.now (flat_map start_in declarations.now)) }
{
    let mut has_start = false;
    for declaration in declarations {
        let Declaration::Start { line, name } = declaration else {
            continue;
        };
        first.note_if(has_start, SheetFault::Redeclared(*line));
        let is_unknown = !names.has_rule(name.bytes.as_slice());
        first.note_if(is_unknown, SheetFault::UnknownSymbol(name.line));
        has_start = true;
    }
}

/// Puts the word into the set, and notes it where it was there before.
fn note_again<'a>(
    words: &mut WordSet<'a>,
    word: &'a Word,
    first: &mut FirstFault,
) -> Result<(), NoMemory>
    ensures more { OnOk result ((list : List (List ℕ)) → IsSetOf words.old list → IsSetOf words.new (list ++ word.now.bytes ∷ [])) }
    ensures noted { OnOk result (Noted first.old.fault first.new.fault (λ f. (has_word words.old word.now.bytes ≡ true) × (f ≡ SheetFault.Redeclared word.now.line))) }
{
    let was_there = words.add(word.bytes.as_slice())?;
    first.note_if(was_there, SheetFault::Redeclared(word.line));
    Ok(())
}

/// The name of the token, where one is declared.
fn token_name(declaration: &Declaration) -> Option<&Word>
    ensures { MatchOption result (token_in declaration.now ≡ []) (λ word. token_in declaration.now ≡ word.now ∷ []) }
{
    match declaration {
        Declaration::Literal { name, literal: _ } => Some(name),
        Declaration::Matched { name, pattern: _ } => Some(name),
        Declaration::Skip { pattern: _ } => None,
        Declaration::Start { line: _, name: _ } => None,
    }
}

/// The literal, where one is named.
fn named_literal(declaration: &Declaration) -> Option<&Word>
    ensures { MatchOption result (literal_in declaration.now ≡ []) (λ word. literal_in declaration.now ≡ word.now ∷ []) }
{
    match declaration {
        Declaration::Literal { name: _, literal } => Some(literal),
        Declaration::Matched {
            name: _,
            pattern: _,
        } => None,
        Declaration::Skip { pattern: _ } => None,
        Declaration::Start { line: _, name: _ } => None,
    }
}
