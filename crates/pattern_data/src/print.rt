//! Writes the normal spelling of a pattern.
ghost use Rattle.std.specs.Prelude.{◌≡◌, ◌++◌, IfOk, OnOk};
ghost use Rattle.pattern_data.specs.declared.signs.Repetition.{Repetition};
ghost use Rattle.pattern_data.specs.Printing.{written, takes_brackets_in_choice, takes_brackets_in_sequence, takes_brackets_in_repetition, within, in_repetition, signs_text, repetition_text, normal_spelling};

use crate::pattern::Pattern;
use crate::signs::Repetition;
use crate::texts::write_set;
use std::alloc::{AllocError, Global};

/// What a pattern is outermost.
#[derive(Clone, Copy, Debug, PartialEq, Eq)]
pub enum Form {
    Set,
    Sequence,
    Choice,
    Repetition,
}

fn form_of(pattern: &Pattern) -> Form
    ensures { result ≡ (written pattern.now).0 }
{
    match pattern {
        Pattern::Set(_) => Form::Set,
        Pattern::Seq(_) => Form::Sequence,
        Pattern::Alt(_) => Form::Choice,
        Pattern::Star(_) => Form::Repetition,
        Pattern::Plus(_) => Form::Repetition,
        Pattern::Opt(_) => Form::Repetition,
    }
}

/// Whether a pattern stands in brackets among alternatives.
fn has_alternatives(pattern: &Pattern) -> bool
    ensures { result ≡ takes_brackets_in_choice (written pattern.now).0 }
{
    matches!(form_of(pattern), Form::Choice)
}

/// Whether a pattern stands in brackets in a sequence.
fn has_members(pattern: &Pattern) -> bool
    ensures { result ≡ takes_brackets_in_sequence (written pattern.now).0 }
{
    matches!(form_of(pattern), Form::Sequence | Form::Choice)
}

/// Whether a pattern stands in brackets where it is repeated.
fn is_composed(pattern: &Pattern) -> bool
    ensures { result ≡ takes_brackets_in_repetition (written pattern.now).0 }
{
    match form_of(pattern) {
        Form::Set => false,
        Form::Sequence | Form::Choice | Form::Repetition => true,
    }
}

/// Writes a pattern, and goes down its tree.
#[cycle(write)]
fn write(alloc: Global, pattern: &Pattern, text: &mut Vec<u8>) -> Result<(), AllocError>
    ensures { OnOk result (text.new.items ≡ text.old.items ++ normal_spelling pattern.now) }
{
    match pattern {
        Pattern::Set(set) => write_set(alloc, set, text),
        Pattern::Seq(members) => {
            for member in members.as_slice() {
                write_within(alloc, has_members(member), member, text)?;
            }
            Ok(())
        }
        Pattern::Alt(members) => {
            let [first, others @ ..] = members.as_slice() else {
                return Ok(());
            };
            write_within(alloc, has_alternatives(first), first, text)?;
            for other in others {
                text.push(b'|')?;
                write_within(alloc, has_alternatives(other), other, text)?;
            }
            Ok(())
        }
        Pattern::Star(inner) => write_repeated(alloc, inner.get(), Repetition::Star, text),
        Pattern::Plus(inner) => write_repeated(alloc, inner.get(), Repetition::Plus, text),
        Pattern::Opt(inner) => write_repeated(alloc, inner.get(), Repetition::Opt, text),
    }
}

/// Writes a pattern, in brackets where it takes some.
#[cycle(write)]
fn write_within(
    alloc: Global,
    in_brackets: bool,
    pattern: &Pattern,
    text: &mut Vec<u8>,
) -> Result<(), AllocError>
    ensures { OnOk result (text.new.items ≡ text.old.items ++ signs_text (within in_brackets (written pattern.now).1)) }
{
    if !in_brackets {
        return write(alloc, pattern, text);
    }
    text.push(b'(')?;
    write(alloc, pattern, text)?;
    text.push(b')')?;
    Ok(())
}

/// Writes a pattern that is repeated.
#[cycle(write)]
fn write_repeated(
    alloc: Global,
    inner: &Pattern,
    repetition: Repetition,
    text: &mut Vec<u8>,
) -> Result<(), AllocError>
    ensures { OnOk result (text.new.items ≡ text.old.items ++ signs_text (in_repetition repetition (written inner.now))) }
{
    write_within(alloc, is_composed(inner), inner, text)?;
    text.push(operator(repetition))?;
    Ok(())
}

fn operator(repetition: Repetition) -> u8
    ensures { result ≡ repetition_text repetition }
{
    match repetition {
        Repetition::Star => b'*',
        Repetition::Plus => b'+',
        Repetition::Opt => b'?',
    }
}

impl Pattern {
    /// The normal spelling of the pattern. It goes down the tree, which `read` keeps low.
    pub fn print(&self, alloc: Global) -> Result<Vec<u8>, AllocError>
        ensures { IfOk result (λ text. text.items ≡ normal_spelling self.now) }
    {
        let mut text = Vec::new(alloc);
        write(alloc, self, &mut text)?;
        Ok(text)
    }
}
