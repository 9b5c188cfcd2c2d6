//! Reads a sheet.
ghost use Rattle.std.specs.Prelude.{IfOk, IfErr, MatchResult};
ghost use Rattle.outline_theory.specs.Reading.{IsFaultless, Reads};
ghost use Rattle.sheet_reader.specs.Faults.{IsReadFault, IsOutlineRefused};

use crate::parts::decls_of;
use crate::sheet::Sheet;
use lr_base::{NoMemory, SHEET_BYTES};
use outline_checks::first_line_fault;
use outline_data::{LimitKind, Outline, SheetFault};
use outline_numbers::number_outline;
use outline_reader::read_outline;
use std::alloc::Global;

/// The first fault of an outline, but for limits: it has no rule, or a fault on a line.
fn check_outline(alloc: Global, outline: &Outline) -> Result<(), SheetFault>
    ensures { MatchResult result (λ _. IsFaultless outline.now) (IsOutlineRefused outline.now) }
{
    if outline.groups.is_empty() {
        return Err(SheetFault::NoRules);
    }
    match first_line_fault(alloc, outline) {
        Ok(Some(fault)) => Err(fault),
        Ok(None) => Ok(()),
        Err(NoMemory) => Err(SheetFault::NoMemory),
    }
}

/// The sheet that these bytes say, or their first fault: the limit on the bytes comes first; then the first lexical or
/// syntactic fault in the order of the bytes; then the want of rules; then, of the faults on lines, the least line's
/// with the least number; and then the limits in their order.
pub fn read_sheet(alloc: Global, bytes: &[u8]) -> Result<Sheet, SheetFault>
    ensures read { IfOk result (λ sheet. Reads bytes.now sheet) }
    ensures fault { IfErr result (λ fault. IsReadFault bytes.now fault) }
{
    if SHEET_BYTES < bytes.len() {
        return Err(SheetFault::Limit(LimitKind::SheetBytes, SHEET_BYTES as u64 + 1));
    }
    let outline = read_outline(alloc, bytes)?;
    check_outline(alloc, &outline)?;
    let decls = decls_of(alloc, &outline.declarations)?;
    let numbered = number_outline(alloc, &outline, &decls)?;
    let sheet = Sheet::of_outline(alloc, outline, decls, numbered)?;
    Ok(sheet)
}
