//! One lexeme after another.
ghost use Rattle.std.specs.Prelude.{IfOk, IfErr};
ghost use Rattle.sheet_lexemes.specs.Cursors.{IsCursor, IsRead, IsLexFault};

use crate::cursor::Cursor;
use crate::fault::LexFault;
use crate::found::found_at;
use lexeme_theory::{FaultKind, Found, Lexeme};
use std::alloc::Global;

/// What was read.
#[derive(Debug, Drop)]
pub enum Read {
    /// A lexeme, where it begins, and the place behind it.
    Lexeme {
        lexeme: Lexeme,
        begins: Cursor,
        behind: Cursor,
    },
    /// No lexeme comes up to the end, which stands there.
    End(Cursor),
}

/// The next lexeme, behind the blanks and comments from a place on. A fault has the line on which its lexeme begins.
/// Memory is taken for the bytes of names, quoted texts, strings and patterns alone.
pub fn next_lexeme(alloc: Global, bytes: &[u8], from: Cursor) -> Result<Read, LexFault>
    requires { IsCursor bytes.now from }
    ensures read { IfOk result (λ read. IsRead bytes.now from.at read) }
    ensures fault { IfErr result (λ fault. IsLexFault bytes.now from.at fault) }
{
    let mut place = from;
    while place.at < bytes.len() {
        match found_at(alloc, bytes, place.at)? {
            Found::Blank { next } => place = place.moved(bytes, next),
            Found::Lexeme { lexeme, next } => {
                return Ok(Read::Lexeme {
                    lexeme,
                    begins: place,
                    behind: place.moved(bytes, next),
                });
            }
            Found::Fault(FaultKind::BadByte) => {
                return Err(LexFault::BadByte { line: place.line });
            }
            Found::Fault(FaultKind::Syntax) => {
                return Err(LexFault::Syntax { line: place.line });
            }
        }
    }
    Ok(Read::End(place))
}
