//! The first fault on the lines of a sheet.
ghost use Rattle.std.specs.Prelude.{IfOk, MatchOption};
ghost use Rattle.outline_data.specs.declared.fault.SheetFault.{SheetFault as the_fault};
ghost use Rattle.outline_theory.specs.LineFaults.{HasLineFault, IsFirstLineFault};

use crate::alternatives::{index_left_sides, note_groups};
use crate::declarations::{index_tokens, note_named_literals, note_starts};
use crate::first_fault::FirstFault;
use crate::names::Names;
use crate::patterns::note_patterns;
use lr_base::NoMemory;
use outline_data::{Outline, SheetFault};
use std::alloc::Global;

/// The first fault that a sheet has on one of its lines: of those on the least line the one with the least number.
/// `None` where there is none. It takes time in proportion to the sheet's length.
pub fn first_line_fault(alloc: Global, outline: &Outline) -> Result<Option<SheetFault>, NoMemory>
    ensures { IfOk result (λ found. MatchOption found ((fault : the_fault) → ¬ (HasLineFault outline.now fault)) (λ fault. IsFirstLineFault outline.now fault)) }
{
    let mut first = FirstFault::new();
    let names = Names {
        tokens: index_tokens(alloc, &outline.declarations, &mut first)?,
        left_sides: index_left_sides(alloc, &outline.groups)?,
    };
    note_named_literals(alloc, &outline.declarations, &mut first)?;
    note_patterns(alloc, &outline.declarations, &mut first)?;
    note_starts(&names, &outline.declarations, &mut first);
    note_groups(alloc, &names, &outline.groups, &mut first)?;
    Ok(first.fault)
}
