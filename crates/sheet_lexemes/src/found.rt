//! What stands at a place.
ghost use Rattle.std.specs.Prelude.{◌≡◌, ◌≢◌, ℕ, ◌+◌, ◌<◌, List, length, slice_get, IfOk, OnErr, MatchOption};
ghost use Rattle.lexeme_theory.specs.declared.lexeme.Lexeme.TheVariants.{Number, Fold, NumberOf, Quoted, Text};
ghost use Rattle.lexeme_theory.specs.declared.lexeme.Directive.{Directive as DirectiveName};
ghost use Rattle.sheet_theory.specs.Names.{quote, double_quote};
ghost use Rattle.lexeme_theory.specs.Begins.{begin_at as begin_at_place};
ghost use Rattle.lexeme_theory.specs.Stands.{IsNameFound, IsNumberFound, IsDirectiveFound, IsLineCommentFound, IsBlockCommentFound, IsSpelledText, IsFound, directive_word};
ghost use Rattle.sheet_lexemes.specs.Parts.{KeepsBytes};

use crate::begin::begin_at;
use crate::numbers::{Digits, read_number};
use crate::runs::{comment_end, line_end, name_end};
use crate::texts::{Written, read_pattern, read_text};
use lexeme_theory::{Begin, Directive, FaultKind, Found, Lexeme};
use lr_base::NoMemory;
use sheet_data::Bytes;
use std::alloc::Global;

fn line_comment_at(bytes: &[u8], at: usize) -> Found
    requires { at + 1 < length bytes.now }
    ensures { IsLineCommentFound bytes.now at result }
{
    Found::Blank {
        next: line_end(bytes, at + 2),
    }
}

fn block_comment_at(bytes: &[u8], at: usize) -> Found
    requires { at + 1 < length bytes.now }
    ensures { IsBlockCommentFound bytes.now at result }
{
    let to = comment_end(bytes, at + 2);
    if to < bytes.len() {
        Found::Blank { next: to + 2 }
    } else {
        Found::Fault(FaultKind::Syntax)
    }
}

fn name_at(alloc: Global, bytes: &[u8], at: usize) -> Result<Found, NoMemory>
    requires { at < length bytes.now }
    ensures { IfOk result (λ found. IsNameFound bytes.now at found) }
{
    let next = name_end(bytes, at);
    let name = Bytes::from_vec(Vec::from_slice(alloc, &bytes[at..next])?);
    Ok(Found::Lexeme {
        lexeme: Lexeme::Name(name),
        next,
    })
}

fn number_at(bytes: &[u8], at: usize) -> Found
    requires { at < length bytes.now }
    ensures { IsNumberFound Number bytes.now at result }
{
    match read_number(bytes, at) {
        Some(Digits { value, next }) => Found::Lexeme {
            lexeme: Lexeme::Number(value),
            next,
        },
        None => Found::Fault(FaultKind::Syntax),
    }
}

/// `$` and its number.
fn fold_at(bytes: &[u8], at: usize) -> Found
    requires { at < length bytes.now }
    ensures { IsNumberFound Fold bytes.now (at + 1) result }
{
    match read_number(bytes, at + 1) {
        Some(Digits { value, next }) => Found::Lexeme {
            lexeme: Lexeme::Fold(value),
            next,
        },
        None => Found::Fault(FaultKind::Syntax),
    }
}

/// `#` and its number.
fn number_of_at(bytes: &[u8], at: usize) -> Found
    requires { at < length bytes.now }
    ensures { IsNumberFound NumberOf bytes.now (at + 1) result }
{
    match read_number(bytes, at + 1) {
        Some(Digits { value, next }) => Found::Lexeme {
            lexeme: Lexeme::NumberOf(value),
            next,
        },
        None => Found::Fault(FaultKind::Syntax),
    }
}

fn quoted_at(alloc: Global, bytes: &[u8], at: usize) -> Result<Found, NoMemory>
    requires { at < length bytes.now }
    ensures { IfOk result (λ found. IsSpelledText Quoted quote bytes.now at found) }
{
    match read_text(alloc, bytes, at, b'\'')? {
        Written::Text { bytes, next } => Ok(Found::Lexeme {
            lexeme: Lexeme::Quoted(bytes),
            next,
        }),
        Written::Fault(kind) => Ok(Found::Fault(kind)),
    }
}

fn text_at(alloc: Global, bytes: &[u8], at: usize) -> Result<Found, NoMemory>
    requires { at < length bytes.now }
    ensures { IfOk result (λ found. IsSpelledText Text double_quote bytes.now at found) }
{
    match read_text(alloc, bytes, at, b'"')? {
        Written::Text { bytes, next } => Ok(Found::Lexeme {
            lexeme: Lexeme::Text(bytes),
            next,
        }),
        Written::Fault(kind) => Ok(Found::Fault(kind)),
    }
}

/// The directive that has this word.
fn directive_of(word: &[u8]) -> Option<Directive>
    ensures { MatchOption result ((directive : DirectiveName) → word.now ≢ directive_word directive) (λ directive. word.now ≡ directive_word directive) }
{
    if word == b"token".as_slice() {
        Some(Directive::Token)
    } else if word == b"skip".as_slice() {
        Some(Directive::Skip)
    } else if word == b"start".as_slice() {
        Some(Directive::Start)
    } else if word == b"declares".as_slice() {
        Some(Directive::Declares)
    } else {
        None
    }
}

fn directive_at(bytes: &[u8], at: usize) -> Found
    requires { at < length bytes.now }
    ensures { IsDirectiveFound bytes.now at result }
{
    let next = name_end(bytes, at + 1);
    match directive_of(&bytes[at + 1..next]) {
        Some(directive) => Found::Lexeme {
            lexeme: Lexeme::Directive(directive),
            next,
        },
        None => Found::Fault(FaultKind::Syntax),
    }
}

/// The blank, the lexeme or the fault at a place before the end. Memory is taken for the bytes of names, quoted texts,
/// strings and patterns alone.
pub fn found_at(alloc: Global, bytes: &[u8], at: usize) -> Result<Found, NoMemory>
    requires { at < length bytes.now }
    ensures found { IfOk result (λ found. IsFound bytes.now at found) }
    ensures no_memory { OnErr result (KeepsBytes (begin_at_place bytes.now at)) }
{
    match begin_at(bytes, at) {
        Begin::Blank => Ok(Found::Blank { next: at + 1 }),
        Begin::LineComment => Ok(line_comment_at(bytes, at)),
        Begin::BlockComment => Ok(block_comment_at(bytes, at)),
        Begin::Name => name_at(alloc, bytes, at),
        Begin::Number => Ok(number_at(bytes, at)),
        Begin::Fold => Ok(fold_at(bytes, at)),
        Begin::NumberOf => Ok(number_of_at(bytes, at)),
        Begin::Quoted => quoted_at(alloc, bytes, at),
        Begin::Text => text_at(alloc, bytes, at),
        Begin::Pattern => read_pattern(alloc, bytes, at),
        Begin::Directive => Ok(directive_at(bytes, at)),
        Begin::Mark => Ok(Found::Lexeme {
            lexeme: Lexeme::Mark,
            next: at + 2,
        }),
        Begin::Single(single) => Ok(Found::Lexeme {
            lexeme: Lexeme::Single(single),
            next: at + 1,
        }),
        Begin::BadByte => Ok(Found::Fault(FaultKind::BadByte)),
        Begin::Nothing => Ok(Found::Fault(FaultKind::Syntax)),
    }
}
