//! The words of an outline, in the order of their numbers.
ghost use Rattle.std.specs.Prelude.{◌≡◌, [], ◌∷◌, ◌++◌, OnOk, IfOk};
ghost use Rattle.std.specs.List.{flat_map};
ghost use Rattle.outline_theory.specs.Words.{texts, token_in, token_words, left_words, quoted_in, side_literals};
ghost use Rattle.outline_theory.specs.Numbering.{literal_of_token};
ghost use Rattle.outline_numbers.specs.Vocabularies.{IsVocabulary, words_of};
ghost use Rattle.numbering_theory.specs.Places.{with_words};

use crate::vocabulary::Vocabulary;
use lr_base::NoMemory;
use outline_data::{Alternative, Declaration, Outline, RuleGroup, Symbol};
use std::alloc::Global;

/// Notes the name of the token that a declaration declares.
fn note_token<'a>(words: &mut Vocabulary<'a>, declaration: &'a Declaration) -> Result<(), NoMemory>
    requires { IsVocabulary words.old }
    ensures words { OnOk result (words_of words.new ≡ with_words (words_of words.old) (texts (token_in declaration.now))) }
    ensures places { OnOk result (IsVocabulary words.new) }
{
    match declaration {
        Declaration::Literal { name, .. } | Declaration::Matched { name, .. } => {
            words.note(name.bytes.as_slice())
        }
        Declaration::Skip { .. } | Declaration::Start { .. } => Ok(()),
    }
}

/// The names of the declared tokens.
pub fn token_names(alloc: Global, outline: &Outline) -> Result<Vocabulary<'_>, NoMemory>
    ensures words { IfOk result (λ v. words_of v ≡ with_words [] (texts (token_words outline.now))) }
    ensures places { IfOk result (λ v. IsVocabulary v) }
{
    let mut words = Vocabulary::new(alloc);
    for declaration in &outline.declarations {
        note_token(&mut words, declaration)?;
    }
    Ok(words)
}

/// Puts in the bytes of the literal of the token that a declaration declares: none for the token of a pattern.
fn push_literal<'a>(
    words: &mut Vocabulary<'a>,
    declaration: &'a Declaration,
) -> Result<(), NoMemory>
    requires { IsVocabulary words.old }
    ensures words { OnOk result (words_of words.new ≡ words_of words.old ++ literal_of_token declaration.now) }
    ensures places { OnOk result (IsVocabulary words.new) }
{
    match declaration {
        Declaration::Literal { literal, .. } => words.push(literal.bytes.as_slice()),
        Declaration::Matched { .. } => words.push(&[]),
        Declaration::Skip { .. } | Declaration::Start { .. } => Ok(()),
    }
}

/// The literals of the declared tokens, by number; no bytes stand for the token of a pattern.
fn declared_literals(alloc: Global, outline: &Outline) -> Result<Vocabulary<'_>, NoMemory>
    ensures words { IfOk result (λ v. words_of v ≡ flat_map literal_of_token outline.now.declarations) }
    ensures places { IfOk result (λ v. IsVocabulary v) }
{
    let mut words = Vocabulary::new(alloc);
    for declaration in &outline.declarations {
        push_literal(&mut words, declaration)?;
    }
    Ok(words)
}

/// Notes a symbol that is a literal.
fn note_quoted<'a>(words: &mut Vocabulary<'a>, symbol: &'a Symbol) -> Result<(), NoMemory>
    requires { IsVocabulary words.old }
    ensures words { OnOk result (words_of words.new ≡ with_words (words_of words.old) (texts (quoted_in symbol.now))) }
    ensures places { OnOk result (IsVocabulary words.new) }
{
    match symbol {
        Symbol::Quoted(word) => words.note(word.bytes.as_slice()),
        Symbol::Name(_) => Ok(()),
    }
}

/// Notes the literals of a right side.
fn note_side<'a>(words: &mut Vocabulary<'a>, alternative: &'a Alternative) -> Result<(), NoMemory>
    requires { IsVocabulary words.old }
    ensures words { OnOk result (words_of words.new ≡ with_words (words_of words.old) (texts (flat_map quoted_in alternative.now.right))) }
    ensures places { OnOk result (IsVocabulary words.new) }
{
    for symbol in &alternative.right {
        note_quoted(words, symbol)?;
    }
    Ok(())
}

/// Notes the literals of all right sides of one left side.
fn note_sides<'a>(words: &mut Vocabulary<'a>, group: &'a RuleGroup) -> Result<(), NoMemory>
    requires { IsVocabulary words.old }
    ensures words { OnOk result (words_of words.new ≡ with_words (words_of words.old) (texts (flat_map (λ a. flat_map quoted_in a.right) group.now.alternatives))) }
    ensures places { OnOk result (IsVocabulary words.new) }
{
    for alternative in &group.alternatives {
        note_side(words, alternative)?;
    }
    Ok(())
}

/// The literals of all tokens, by number: those of the declared tokens, and then those without a name in the order of
/// their first use.
pub fn literals(alloc: Global, outline: &Outline) -> Result<Vocabulary<'_>, NoMemory>
    ensures words { IfOk result (λ v. words_of v ≡ with_words (flat_map literal_of_token outline.now.declarations) (texts (side_literals outline.now))) }
    ensures places { IfOk result (λ v. IsVocabulary v) }
{
    let mut words = declared_literals(alloc, outline)?;
    for group in &outline.groups {
        note_sides(&mut words, group)?;
    }
    Ok(words)
}

/// Notes the left side of a group.
fn note_left<'a>(words: &mut Vocabulary<'a>, group: &'a RuleGroup) -> Result<(), NoMemory>
    requires { IsVocabulary words.old }
    ensures words { OnOk result (words_of words.new ≡ with_words (words_of words.old) (texts (group.now.left ∷ []))) }
    ensures places { OnOk result (IsVocabulary words.new) }
{
    words.note(group.left.bytes.as_slice())
}

/// The names of the grammar, in the order of their first rules.
pub fn grammar_names(alloc: Global, outline: &Outline) -> Result<Vocabulary<'_>, NoMemory>
    ensures words { IfOk result (λ v. words_of v ≡ with_words [] (texts (left_words outline.now))) }
    ensures places { IfOk result (λ v. IsVocabulary v) }
{
    let mut words = Vocabulary::new(alloc);
    for group in &outline.groups {
        note_left(&mut words, group)?;
    }
    Ok(words)
}
