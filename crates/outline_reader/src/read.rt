//! A sheet's outline.
ghost use Rattle.std.specs.Prelude.{◌≡◌, ◌≤◌, length, IfOk, IfErr};
ghost use Rattle.lr_base.specs.declared.limits.TheConstants.{SHEET_BYTES};
ghost use Rattle.sheet_lexemes.specs.Cursors.{IsCursor, IsRead};
ghost use Rattle.outline_theory.specs.Outlines.{IsOutlineOf};
ghost use Rattle.outline_reader.specs.Faults.{IsOutlineFault};
ghost use Rattle.outline_reader.specs.Refusals.{IsNoLexeme};

use crate::progress::Progress;
use outline_data::{Outline, SheetFault};
use sheet_lexemes::{Cursor, LexFault, Read, next_lexeme};
use std::alloc::Global;

/// The next lexeme of a sheet.
fn lexeme_from(alloc: Global, bytes: &[u8], from: Cursor) -> Result<Read, SheetFault>
    requires size { length bytes.now ≤ SHEET_BYTES }
    requires stands { IsCursor bytes.now from }
    ensures read { IfOk result (λ read. IsRead bytes.now from.at read) }
    ensures fault { IfErr result (λ fault. IsNoLexeme bytes.now from.at fault) }
{
    match next_lexeme(alloc, bytes, from) {
        Ok(read) => Ok(read),
        Err(LexFault::BadByte { line }) => Err(SheetFault::BadByte(line as u32)),
        Err(LexFault::Syntax { line }) => Err(SheetFault::Syntax(line as u32)),
        Err(LexFault::NoMemory) => Err(SheetFault::NoMemory),
    }
}

/// The line of a place.
fn line_of_place(bytes: &[u8], place: Cursor) -> u32
    requires size { length bytes.now ≤ SHEET_BYTES }
    requires stands { IsCursor bytes.now place }
    ensures { result ≡ place.line }
{
    place.line as u32
}

/// The outline of a sheet of at most 262,144 bytes, or its first lexical or syntactic fault, with the line on which the
/// faulty lexeme begins. Nothing is read behind the second `%%`. Of a pattern the outline has its text, as it stands.
pub fn read_outline(alloc: Global, bytes: &[u8]) -> Result<Outline, SheetFault>
    requires { length bytes.now ≤ SHEET_BYTES }
    ensures outline { IfOk result (λ o. IsOutlineOf bytes.now o) }
    ensures fault { IfErr result (λ fault. IsOutlineFault bytes.now fault) }
{
    let mut progress = Progress::first(alloc);
    let mut place = Cursor::first();
    while !progress.is_ended() {
        match lexeme_from(alloc, bytes, place)? {
            Read::Lexeme {
                lexeme,
                begins,
                behind,
            } => {
                progress = progress.with(alloc, lexeme, line_of_place(bytes, begins))?;
                place = behind;
            }
            Read::End(end) => return progress.finished(line_of_place(bytes, end)),
        }
    }
    progress.finished(line_of_place(bytes, place))
}
