//! Texts between two of a closing byte.
ghost use Rattle.std.specs.Prelude.{◌≡◌, ℕ, ◌<◌, ◌≤◌, List, length, IfOk};
ghost use Rattle.std.specs.List.{list_any};
ghost use Rattle.lexeme_theory.specs.declared.lexeme.Lexeme.{Lexeme};
ghost use Rattle.lexeme_theory.specs.SheetBytes.{is_bad_in_text};
ghost use Rattle.lexeme_theory.specs.Stands.{IsSpelledText, IsPatternFound};
ghost use Rattle.sheet_lexemes.specs.Parts.{written_as, fault_of_text};

use crate::escapes::spelled;
use crate::kinds::is_bad_within;
use crate::runs::text_end;
use lexeme_theory::{FaultKind, Found, Lexeme};
use lr_base::NoMemory;
use sheet_data::Bytes;
use std::alloc::Global;

/// What a text stands for.
#[derive(Debug, Drop)]
pub enum Written {
    /// These bytes; `next` is the place behind the closing byte.
    Text { bytes: Bytes, next: usize },
    /// No lexeme.
    Fault(FaultKind),
}

fn has_bad_byte(bytes: &[u8]) -> bool
    ensures { result ≡ list_any is_bad_in_text bytes.now }
{
    bytes.iter().any(|byte| is_bad_within(*byte))
}

/// Why the text is no lexeme, whatever it spells: a bad byte goes before a closing byte that is missing.
fn text_fault(bytes: &[u8], from: usize, to: usize, closing: u8) -> Option<FaultKind>
    requires order { from ≤ to }
    requires inside { to ≤ length bytes.now }
    ensures { result ≡ fault_of_text closing bytes.now from to }
{
    if has_bad_byte(&bytes[from..to]) {
        return Some(FaultKind::BadByte);
    }
    if bytes.get(to) == Some(&closing) {
        return None;
    }
    Some(FaultKind::Syntax)
}

/// The text with escapes behind the byte at a place.
pub fn read_text(alloc: Global, bytes: &[u8], at: usize, closing: u8) -> Result<Written, NoMemory>
    requires { at < length bytes.now }
    ensures { IfOk result (λ written. (lexeme : List ℕ → Lexeme) → IsSpelledText lexeme closing bytes.now at (written_as lexeme written)) }
{
    let from = at + 1;
    let to = text_end(bytes, from, closing);
    if let Some(kind) = text_fault(bytes, from, to, closing) {
        return Ok(Written::Fault(kind));
    }
    match spelled(alloc, &bytes[from..to])? {
        Some(bytes) => Ok(Written::Text {
            bytes,
            next: to + 1,
        }),
        None => Ok(Written::Fault(FaultKind::Syntax)),
    }
}

/// The pattern behind the byte at a place.
pub fn read_pattern(alloc: Global, bytes: &[u8], at: usize) -> Result<Found, NoMemory>
    requires { at < length bytes.now }
    ensures { IfOk result (λ found. IsPatternFound bytes.now at found) }
{
    let from = at + 1;
    let to = text_end(bytes, from, b'/');
    if let Some(kind) = text_fault(bytes, from, to, b'/') {
        return Ok(Found::Fault(kind));
    }
    let text = Bytes::from_vec(Vec::from_slice(alloc, &bytes[from..to])?);
    Ok(Found::Lexeme {
        lexeme: Lexeme::Pattern(text),
        next: to + 1,
    })
}
